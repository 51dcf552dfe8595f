//! Values under keys that never come again: a key reaches its value from its take to its return, and nothing else ever.
#![tactic(auto)]

mod key;
mod laws;
mod slots;

pub use key::{Counts, Key, Refused, Stale};
pub use laws::keys_never_come_again;
pub use slots::Slots;
