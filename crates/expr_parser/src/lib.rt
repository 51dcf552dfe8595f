//! A parser of expressions.
#![tactic(auto)]

mod arithmetic;
mod discards;
mod logic;
pub mod operator;
mod postfix;
mod rules;

pub use discards::{discard_expression, discard_type};
pub use primary_parser::{MAX_DEPTH, Part, type_at};
pub use rules::{arguments_at, expr_at};
