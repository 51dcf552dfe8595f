//! Typed programs: the trees of the language with names resolved to numbers and a shape at each expression.
#![tactic(auto)]

mod expression;
mod program;
mod statement;
mod term;

pub use epl_tree::{Comparison, Level, Mode, Operator};
pub use epl_values::{EventShape, EventShapes, Field, Fields, List, Shape, Shapes, Text};
pub use expression::{
    Method, TypedEntries, TypedEntry, TypedExpr, TypedExprs, TypedLink, TypedLinks, TypedNode,
    TypedSuffix, TypedSuffixNode, TypedSuffixes,
};
pub use program::{
    Action, Actions, Global, Globals, Local, Locals, Monitor, Monitors, Program, Site, Sites,
    TypedTerm,
};
pub use sqlite_items::Boxed;
pub use statement::{Stmt, Stmts, TypedPlace, Variable};
pub use term::{
    Constraint, ConstraintNode, Constraints, Duration, FieldNumbers, Operand, Range, RangeEnd,
    TemplateShape, Term, Terms,
};
