//! Entries on their way: a queue for each actor.
#![tactic(auto)]

mod queued;

pub use queued::{Queued, empty_queues, first_at, gather, pop_at};
