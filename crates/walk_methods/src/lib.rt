//! Operators, comparisons and methods of values, with their charges.
#![tactic(auto)]

mod methods;
mod operators;

pub use methods::method;
pub use operators::{compare, operate};
