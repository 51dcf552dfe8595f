//! What a context asks of whatever runs the bodies of its program.
#![tactic(auto)]

mod runner;

pub use runner::BodyRunner;
