//! Contexts handle entries as naive evaluation says.
#![tactic(auto)]

mod around;
mod callbacks;
mod effects;
mod ends;
mod handling;
mod things;
mod turns;

pub use handling::handle;
