//! A plain host: it answers as the scene replies, and keeps the effects that it took.
#![tactic(auto)]

mod counting;
mod plain;
mod state;

pub use counting::{count_of, count_one, count_targets, uncount_one};
pub use state::PlainHost;
