//! What workers that run beside each other keep, over any contexts and any reader: a theory, without code.
#![tactic(auto)]

mod laws;

pub use laws::{boxes_fill, fresh_holds, reader_goes_on, slot_goes_on, workers_keep};
