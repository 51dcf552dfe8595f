//! What bodies mean: expressions, statements, calls and whole runs, rule by rule.
#![tactic(auto)]

mod run;

pub use run::{Flow, Frame, Halt, Move};
