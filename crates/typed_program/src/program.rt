use crate::expression::{TypedExpr, TypedExprs};
use crate::statement::Stmts;
use crate::term::Term;
use epl_values::{EventShapes, List, Shape, Shapes, Text};

/// A program with its names resolved to numbers, which follow the order of the source over all files.
#[derive(Drop)]
pub struct Program {
    pub types: EventShapes,
    pub monitors: Monitors,
    pub actions: Actions,
    pub sites: Sites,
}

/// A monitor: its globals, and the numbers of its actions `onload` and `ondie`.
#[derive(Drop)]
pub struct Monitor {
    pub name: Text,
    pub globals: Globals,
    pub onload: u16,
    pub ondie: Option<u16>,
}

/// The monitors of a program; a monitor's number is its place here.
pub type Monitors = List<Monitor>;

/// A variable of a monitor, with its initial value if it is given.
#[derive(Drop)]
pub struct Global {
    pub name: Text,
    pub shape: Shape,
    pub initial: Option<TypedExpr>,
}

/// The globals of a monitor; a global's number is its place here.
pub type Globals = List<Global>;

/// An action of a monitor. Its parameters have the first numbers of its locals.
#[derive(Drop)]
pub struct Action {
    pub monitor: u16,
    pub params: Shapes,
    pub result: Option<Shape>,
    /// The locals and loop variables of its body, callbacks aside, in order.
    pub locals: Shapes,
    pub body: Stmts,
}

/// The actions of a program; an action's number is its place here.
pub type Actions = List<Action>;

/// A place where listeners are made, with the body that runs for each completion. The parameters of that body are the
/// captured names and then the bound ones.
#[derive(Drop)]
pub struct Site {
    pub monitor: u16,
    pub term: Term,
    /// What is evaluated at the `on`, in order.
    pub operands: TypedExprs,
    /// The outer names that the body uses, by their numbers in the body around the `on`, in ascending order.
    pub captured: Locals,
    /// The names that the event expression binds, in order of the source.
    pub bound: Locals,
    /// The locals and loop variables of the body, inner callbacks aside, in order.
    pub locals: Shapes,
    pub body: Stmts,
}

/// The sites of a program; a site's number is its place here.
pub type Sites = List<Site>;

/// A name of a body by its number.
#[derive(Drop)]
pub struct Local {
    pub number: u16,
    pub shape: Shape,
}

/// Names of a body, in order.
pub type Locals = List<Local>;

/// The event expression of a site, with its operands and the names that it binds.
#[derive(Drop)]
pub struct TypedTerm {
    pub term: Term,
    pub operands: TypedExprs,
    pub bound: Locals,
}
