//! Which expressions call no action, and so leave the variables as they are.
#![tactic(auto)]

mod calmness;

pub use calmness::{all_calm, calm};
