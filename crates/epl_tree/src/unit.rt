use crate::expression::Expr;
use crate::name::Name;
use crate::statement::Stmts;
use crate::types::TypeExpr;
use epl_values::List;
use span_text::Spot;

/// A program file.
#[derive(Drop)]
pub struct Unit {
    pub declarations: Declarations,
}

/// Program files, in order.
pub type Units = List<Unit>;

/// An event type or a monitor.
#[derive(Drop)]
pub enum Declaration {
    Event(EventDecl),
    Monitor(MonitorDecl),
}

/// Declarations, in order.
pub type Declarations = List<Declaration>;

/// An event type.
#[derive(Drop)]
pub struct EventDecl {
    pub spot: Spot,
    pub name: Name,
    pub fields: FieldDecls,
}

/// A field of an event type.
#[derive(Drop)]
pub struct FieldDecl {
    pub shape: TypeExpr,
    pub name: Name,
}

/// Fields, in order.
pub type FieldDecls = List<FieldDecl>;

/// A monitor.
#[derive(Drop)]
pub struct MonitorDecl {
    pub spot: Spot,
    pub name: Name,
    pub members: Members,
}

/// A part of a monitor.
#[derive(Drop)]
pub enum Member {
    Global(GlobalDecl),
    Action(ActionDecl),
}

/// The parts of a monitor, in order.
pub type Members = List<Member>;

/// A variable of a monitor, with its initial value if it is given.
#[derive(Drop)]
pub struct GlobalDecl {
    pub shape: TypeExpr,
    pub name: Name,
    pub initial: Option<Expr>,
}

/// An action, with the type of its result if it has one.
#[derive(Drop)]
pub struct ActionDecl {
    pub spot: Spot,
    pub name: Name,
    pub params: Params,
    pub result: Option<TypeExpr>,
    pub body: Stmts,
}

/// A parameter of an action.
#[derive(Drop)]
pub struct Param {
    pub shape: TypeExpr,
    pub name: Name,
}

/// Parameters, in order.
pub type Params = List<Param>;
