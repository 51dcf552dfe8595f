//! What the parsers read.

use crate::event_outline::put_event;
use crate::expr_outline::put_expr;
use crate::outcome::{put_number, put_spot, refused};
use crate::tokens::{no_tokens, read_tokens};
use crate::type_outline::put_type;
use anyhow::{Result, bail};
use epl_lexer::Token;
use epl_syntax::{
    ParseFault, discard_event, discard_expression, discard_type, event_expression, expression,
};
use epl_tree::{EventExpr, Expr, TypeExpr};
use event_parser::{EventPart, event_at};
use expr_parser::{MAX_DEPTH, Part, expr_at, type_at};
use span_text::Spot;
use std::alloc::{AllocError, Global};

/// The first expression or event expression of a text; of a long text its outline isn't told.
pub fn whole_told(alloc: Global, question: &str, bytes: &[u8], long: bool) -> Result<String> {
    let tokens = match read_tokens(alloc, bytes) {
        Ok(tokens) => tokens,
        Err(fault) => return no_tokens(alloc, fault),
    };
    if tokens.len() == 0 {
        bail!("no tokens");
    }
    if question == "event" {
        return match event_expression(alloc, &tokens, 0) {
            Ok((tree, end)) => event_read(alloc, tree, end, long),
            Err(fault) => no_tree(alloc, fault),
        };
    }
    match expression(alloc, &tokens, 0) {
        Ok((tree, end)) => expr_read(alloc, tree, end, long),
        Err(fault) => no_tree(alloc, fault),
    }
}

/// The type or the part at the start of a text that nests at most so deep.
pub fn part_told(
    alloc: Global,
    question: &str,
    name: &str,
    depth: u32,
    bytes: &[u8],
) -> Result<String> {
    let tokens = match read_tokens(alloc, bytes) {
        Ok(tokens) => tokens,
        Err(fault) => return no_tokens(alloc, fault),
    };
    let tokens = tokens.as_slice();
    match (question, name) {
        ("type", _) => type_told(alloc, tokens),
        ("part", "whole") => expr_part_told(alloc, Part::Whole, depth, tokens),
        ("part", "negated") => expr_part_told(alloc, Part::Negated, depth, tokens),
        ("part", "sum") => expr_part_told(alloc, Part::Sum, depth, tokens),
        ("part", "signed") => expr_part_told(alloc, Part::Signed, depth, tokens),
        ("part", "postfix") => expr_part_told(alloc, Part::Postfix, depth, tokens),
        ("event-part", "whole") => event_part_told(alloc, EventPart::Whole, depth, tokens),
        ("event-part", "prefixed") => event_part_told(alloc, EventPart::Prefixed, depth, tokens),
        _ => bail!("no part of that name"),
    }
}

/// Where tokens have no tree.
fn no_tree(alloc: Global, fault: ParseFault) -> Result<String> {
    match fault {
        ParseFault::Syntax(spot) => refused(alloc, "syntax", spot),
        ParseFault::Memory => Err(AllocError)?,
    }
}

fn type_told(alloc: Global, tokens: &[Token]) -> Result<String> {
    match type_at(alloc, tokens, MAX_DEPTH, 0)? {
        Some((tree, end)) => {
            let told = type_outlined(alloc, &tree, end);
            discard_type(tree);
            told
        }
        None => Ok(String::from_str(alloc, "= none\n")?),
    }
}

fn type_outlined(alloc: Global, tree: &TypeExpr, end: usize) -> Result<String> {
    let mut out = placed(alloc, tree.spot, end)?;
    out.push_str(": ")?;
    put_type(&mut out, tree)?;
    out.push_str("\n")?;
    Ok(out)
}

fn expr_part_told(alloc: Global, part: Part, depth: u32, tokens: &[Token]) -> Result<String> {
    match expr_at(alloc, tokens, depth as usize, part, 0)? {
        Some((tree, end)) => expr_read(alloc, tree, end, false),
        None => Ok(String::from_str(alloc, "= none\n")?),
    }
}

fn event_part_told(alloc: Global, part: EventPart, depth: u32, tokens: &[Token]) -> Result<String> {
    match event_at(alloc, tokens, depth as usize, part, 0)? {
        Some((tree, end)) => event_read(alloc, tree, end, false),
        None => Ok(String::from_str(alloc, "= none\n")?),
    }
}

/// Where a tree stands, and the number of the token behind it, from 0.
fn placed(alloc: Global, spot: Spot, end: usize) -> Result<String> {
    let mut out = String::new(alloc);
    put_spot(&mut out, "= at ", spot)?;
    put_number(&mut out, ", end ", end)?;
    Ok(out)
}

/// What an expression is told as, which is let go.
fn expr_read(alloc: Global, tree: Expr, end: usize, long: bool) -> Result<String> {
    let told = expr_told(alloc, &tree, end, long);
    discard_expression(tree);
    told
}

/// What an event expression is told as, which is let go.
fn event_read(alloc: Global, tree: EventExpr, end: usize, long: bool) -> Result<String> {
    let told = event_told(alloc, &tree, end, long);
    discard_event(tree);
    told
}

fn expr_told(alloc: Global, tree: &Expr, end: usize, long: bool) -> Result<String> {
    let mut out = placed(alloc, tree.spot, end)?;
    if !long {
        out.push_str(": ")?;
        put_expr(&mut out, tree)?;
    }
    out.push_str("\n")?;
    Ok(out)
}

fn event_told(alloc: Global, tree: &EventExpr, end: usize, long: bool) -> Result<String> {
    let mut out = placed(alloc, tree.spot, end)?;
    if !long {
        out.push_str(": ")?;
        put_event(&mut out, tree)?;
    }
    out.push_str("\n")?;
    Ok(out)
}
