use crate::event::EventExpr;
use crate::expression::{Expr, Exprs, Suffixes};
use crate::name::Name;
use crate::types::TypeExpr;
use epl_values::{List, Text};
use span_text::Spot;
use sqlite_items::Boxed;

/// A statement.
#[cycle(statement)]
#[derive(Drop)]
pub struct Stmt {
    pub spot: Spot,
    pub node: StmtNode,
}

/// Statements, in order.
pub type Stmts = List<Stmt>;

/// What a statement is made of.
#[cycle(statement)]
#[derive(Drop)]
pub enum StmtNode {
    Block(Stmts),
    On(Listening),
    /// A local with the default of its type.
    Declare(TypeExpr, Name),
    /// A local and its value.
    DeclareAs(TypeExpr, Name, Expr),
    /// A local that holds the listener.
    DeclareOn(TypeExpr, Name, Listening),
    Assign(Place, Expr),
    AssignOn(Place, Listening),
    /// The test; the statement behind `then`, or the block; and that behind `else`.
    If(Expr, Boxed<Stmt>, Option<Boxed<Stmt>>),
    While(Expr, Stmts),
    /// The loop variable, the sequence and the body.
    For(Name, Expr, Stmts),
    Break,
    Continue,
    Return(Option<Expr>),
    Die,
    Print(Expr),
    Log(Expr, Level),
    Route(Expr),
    /// The event, and where it is sent.
    Send(Expr, Expr),
    /// The action, its arguments, and the context behind `to`.
    Spawn(Text, Exprs, Option<Expr>),
    /// The name behind `monitor.`, and its arguments.
    Monitor(Text, Exprs),
    /// An expression that ends with a call.
    Call(Expr),
}

/// A listener: its event expression and its callback.
#[cycle(statement)]
#[derive(Drop)]
pub struct Listening {
    pub spot: Spot,
    pub event: EventExpr,
    pub callback: Boxed<Stmt>,
}

/// What a value is assigned to: a variable, and the fields and indices behind it.
#[derive(Drop)]
pub struct Place {
    pub spot: Spot,
    pub name: Text,
    pub steps: Suffixes,
}

/// The level of a line in the log.
#[derive(Clone, Copy, Debug, PartialEq, Eq)]
pub enum Level {
    Crit,
    Fatal,
    Error,
    Warn,
    Info,
    Debug,
    Trace,
}
