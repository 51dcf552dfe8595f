//! The reader of an event file as an actor: it takes its items in order, and handles what it is sent.
#![tactic(auto)]

mod reader;

pub use reader::Reader;
