//! Event expressions under way: how they begin, what a stimulus does to them, and their active leaves.
#![tactic(auto)]

mod followed;
mod forms;
mod leaves;
mod moment;
mod parts;
mod shown;
mod starting;
mod state;
mod stepping;
mod waiting;

pub use state::{State, StepOut};
