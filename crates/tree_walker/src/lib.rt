//! Runs bodies over their trees.
#![tactic(auto)]

mod run;
mod walker;

pub use run::run_action;
pub use walker::TreeWalker;
