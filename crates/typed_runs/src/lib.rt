//! Runs of typed programs keep the shapes of their variables.
#![tactic(auto)]

mod laws;

pub use laws::runs_keep_shapes;
