//! A context that runs: it handles entries one after another, as naive evaluation says.
#![tactic(auto)]

mod cell;

pub use cell::{Cell, Cells, Handling};
