//! What a running body asks of the context that it runs in: fuel, and effects with their answers.
#![tactic(auto)]

mod host;
mod laws;
mod tally;

pub use epl_values::{Text, Value, Values};
pub use host::{Answer, Effect, End, Fault, Host};
pub use laws::{counts_are_lawful, replies_are_lawful, targets_are_counted};
pub use tally::{Tallies, Tally};
