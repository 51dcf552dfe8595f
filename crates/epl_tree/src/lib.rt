//! Syntax trees of the language: one struct or variant for each alternative of its grammar, its parts in order.
//! Each node has its spot, which is that of its first token. What the grammar repeats is a list.
#![tactic(auto)]

mod event;
mod expression;
mod name;
mod statement;
mod types;
mod unit;

pub use epl_values::{List, Text};
pub use event::{
    Constraint, ConstraintNode, Constraints, Duration, DurationNode, EventExpr, EventExprs,
    EventNode, Mode, Range, RangeEnd, Template, TemplateClause, TemplateClauses,
};
pub use expression::{
    Comparison, Entries, Entry, Expr, ExprNode, Exprs, Link, Links, Operator, Suffix, SuffixNode,
    Suffixes,
};
pub use name::Name;
pub use span_text::Spot;
pub use sqlite_items::Boxed;
pub use statement::{Level, Listening, Place, Stmt, StmtNode, Stmts};
pub use types::{TypeExpr, TypeNode};
pub use unit::{
    ActionDecl, Declaration, Declarations, EventDecl, FieldDecl, FieldDecls, GlobalDecl, Member,
    Members, MonitorDecl, Param, Params, Unit, Units,
};
