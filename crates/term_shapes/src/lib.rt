//! Event expressions of typed programs keep the shapes of what they bind.
#![tactic(auto)]

mod laws;

pub use laws::expressions_keep_shapes;
