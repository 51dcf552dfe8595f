//! A parser of event expressions.
#![tactic(auto)]

mod chain;
mod discards;
mod part;
mod rules;

pub use discards::discard_event;
pub use part::EventPart;
pub use rules::{MAX_DEPTH, event_at};
