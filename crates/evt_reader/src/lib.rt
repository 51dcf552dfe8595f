//! The items of an event file.
#![tactic(auto)]

mod events;
mod fault;
mod lines;
mod meaning;
mod reading;
mod times;

pub use fault::LineFault;
pub use reading::items;
