//! Statements on one line, with `; ` between those of a block; what holds statements stands in parentheses or braces.

use crate::event_outline::put_event;
use crate::expr_outline::{put_expr, put_exprs, put_suffixes};
use crate::type_outline::put_type;
use epl_tree::{Expr, Exprs, Level, Listening, Name, Place, Stmt, StmtNode, Stmts, TypeExpr};
use std::alloc::AllocError;

/// A statement.
#[cycle(statements)]
pub fn put_stmt(out: &mut String, stmt: &Stmt) -> Result<(), AllocError> {
    match &stmt.node {
        StmtNode::Block(all) => put_block(out, all),
        StmtNode::On(listening) => put_listening(out, "", listening),
        StmtNode::DeclareOn(shape, name, listening) => {
            put_declared(out, shape, name)?;
            put_listening(out, " := ", listening)
        }
        StmtNode::AssignOn(place, listening) => {
            put_place(out, place)?;
            put_listening(out, " := ", listening)
        }
        StmtNode::If(test, first, second) => {
            put_word(out, "(if ", test)?;
            out.push_str(" ")?;
            put_stmt(out, first.get())?;
            if let Some(second) = second {
                out.push_str(" else ")?;
                put_stmt(out, second.get())?;
            }
            out.push_str(")")
        }
        StmtNode::While(test, all) => {
            put_word(out, "(while ", test)?;
            out.push_str(" ")?;
            put_block(out, all)?;
            out.push_str(")")
        }
        StmtNode::For(name, items, all) => {
            out.push_str("(for ")?;
            out.push_str(name.text.as_str())?;
            put_word(out, " in ", items)?;
            out.push_str(" ")?;
            put_block(out, all)?;
            out.push_str(")")
        }
        plain => put_plain(out, plain),
    }
}

/// Statements between braces.
#[cycle(statements)]
pub fn put_block(out: &mut String, all: &Stmts) -> Result<(), AllocError> {
    out.push_str("{")?;
    let mut first = true;
    for stmt in all.as_slice() {
        if !first {
            out.push_str("; ")?;
        }
        put_stmt(out, stmt)?;
        first = false;
    }
    out.push_str("}")
}

#[cycle(statements)]
fn put_listening(out: &mut String, before: &str, listening: &Listening) -> Result<(), AllocError> {
    out.push_str(before)?;
    out.push_str("(on ")?;
    put_event(out, &listening.event)?;
    out.push_str(" ")?;
    put_stmt(out, listening.callback.get())?;
    out.push_str(")")
}

/// A type and the name that has it.
pub fn put_declared(out: &mut String, shape: &TypeExpr, name: &Name) -> Result<(), AllocError> {
    put_type(out, shape)?;
    out.push_str(" ")?;
    out.push_str(name.text.as_str())
}

fn put_place(out: &mut String, place: &Place) -> Result<(), AllocError> {
    out.push_str(place.name.as_str())?;
    put_suffixes(out, &place.steps)
}

/// A statement that holds no other one.
fn put_plain(out: &mut String, node: &StmtNode) -> Result<(), AllocError> {
    match node {
        StmtNode::Declare(shape, name) => put_declared(out, shape, name),
        StmtNode::DeclareAs(shape, name, value) => {
            put_declared(out, shape, name)?;
            put_word(out, " := ", value)
        }
        StmtNode::Assign(place, value) => {
            put_place(out, place)?;
            put_word(out, " := ", value)
        }
        StmtNode::Break => out.push_str("break"),
        StmtNode::Continue => out.push_str("continue"),
        StmtNode::Die => out.push_str("die"),
        StmtNode::Return(None) => out.push_str("return"),
        StmtNode::Return(Some(value)) => put_word(out, "return ", value),
        StmtNode::Print(text) => put_word(out, "print ", text),
        StmtNode::Call(call) => put_word(out, "call ", call),
        command => put_command(out, command),
    }
}

/// A statement that tells others something.
fn put_command(out: &mut String, node: &StmtNode) -> Result<(), AllocError> {
    match node {
        StmtNode::Log(text, level) => {
            put_word(out, "log ", text)?;
            out.push_str(match level {
                Level::Crit => " at CRIT",
                Level::Fatal => " at FATAL",
                Level::Error => " at ERROR",
                Level::Warn => " at WARN",
                Level::Info => " at INFO",
                Level::Debug => " at DEBUG",
                Level::Trace => " at TRACE",
            })
        }
        StmtNode::Route(event) => put_word(out, "route ", event),
        StmtNode::Send(event, target) => {
            put_word(out, "send ", event)?;
            put_word(out, " to ", target)
        }
        StmtNode::Spawn(name, args, None) => put_called(out, "spawn ", name.as_str(), args),
        StmtNode::Spawn(name, args, Some(target)) => {
            put_called(out, "spawn ", name.as_str(), args)?;
            put_word(out, " to ", target)
        }
        StmtNode::Monitor(name, args) => put_called(out, "monitor.", name.as_str(), args),
        _ => Ok(()),
    }
}

fn put_word(out: &mut String, word: &str, value: &Expr) -> Result<(), AllocError> {
    out.push_str(word)?;
    put_expr(out, value)
}

fn put_called(out: &mut String, word: &str, name: &str, args: &Exprs) -> Result<(), AllocError> {
    out.push_str(word)?;
    out.push_str(name)?;
    out.push_str("(")?;
    put_exprs(out, "", ", ", args)?;
    out.push_str(")")
}
