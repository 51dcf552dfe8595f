//! Schedule files: whose turn it is, line by line.
#![tactic(auto)]

mod fault;
mod line;
mod numbers;
mod reading;

pub use fault::PicksFault;
pub use line::Pick;
pub use reading::{Picks, picks};
