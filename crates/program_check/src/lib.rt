//! The checker of programs: the typed program of the files, or their first typing fault. What it accepts is well typed.
//! Expressions and event expressions are checked by themselves too.
#![tactic(auto)]

mod expression;
mod listener;
mod program;

pub use expr_rules::Wanted;
pub use expression::check_expression;
pub use listener::check_listener;
pub use program::{check, discard};
pub use type_table::{CheckFault, Scope, Table};
