//! Runs the statements of bodies over their trees.
#![tactic(auto)]

mod changing;
mod statements;

pub use statements::Body;
