use crate::expression::{TypedExpr, TypedExprs, TypedSuffixes};
use epl_tree::Level;
use epl_values::{List, Shape};
use sqlite_items::Boxed;

/// A statement.
#[cycle(statement)]
#[derive(Drop)]
pub enum Stmt {
    Block(Stmts),
    /// A listener of the site with this number.
    On(u16),
    /// The local with this number gets the default of its shape.
    Declare(u16, Shape),
    /// The local with this number gets a value.
    DeclareAs(u16, TypedExpr),
    /// The local with this number gets a listener of a site.
    DeclareOn(u16, u16),
    Assign(TypedPlace, TypedExpr),
    /// The place gets a listener of a site.
    AssignOn(TypedPlace, u16),
    /// The test, the statement where it holds, and that where it doesn't.
    If(TypedExpr, Boxed<Stmt>, Option<Boxed<Stmt>>),
    While(TypedExpr, Stmts),
    /// The number of the loop variable, the sequence and the body.
    For(u16, TypedExpr, Stmts),
    Break,
    Continue,
    Return(Option<TypedExpr>),
    Die,
    Print(TypedExpr),
    Log(TypedExpr, Level),
    Route(TypedExpr),
    /// The event, and the channel or context.
    Send(TypedExpr, TypedExpr),
    /// The number of the action, its arguments, and the context behind `to`.
    Spawn(u16, TypedExprs, Option<TypedExpr>),
    Subscribe(TypedExpr),
    Unsubscribe(TypedExpr),
    /// A call, whose value if any is dropped.
    Call(TypedExpr),
}

/// Statements, in order.
pub type Stmts = List<Stmt>;

/// What a value is assigned to: a variable, and the fields, elements and keys behind it.
#[derive(Drop)]
pub struct TypedPlace {
    pub variable: Variable,
    pub shape: Shape,
    pub steps: TypedSuffixes,
}

/// A variable by its number.
#[derive(Clone, Copy, Debug, PartialEq, Eq)]
pub enum Variable {
    Global(u16),
    Local(u16),
}
