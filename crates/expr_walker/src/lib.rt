//! Runs the expressions of bodies over their trees.
#![tactic(auto)]

mod exprs;

pub use exprs::Walker;
