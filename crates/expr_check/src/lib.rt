//! Expressions at their places: the typed expression, or exactly the first fault.
#![tactic(auto)]

mod check;
mod walk;

pub use check::{Target, arguments, check_expression, file_of, judge, place};
