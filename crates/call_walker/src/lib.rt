//! Runs calls of actions and initial values over their trees.
#![tactic(auto)]

mod calls;

pub use calls::{begin, run_statements};
