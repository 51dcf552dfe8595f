//! The texts of events of typed programs are read again as these events.
#![tactic(auto)]

mod laws;

pub use laws::events_are_read_again;
