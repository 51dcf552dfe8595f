//! The instances of a context, under keys: their monitors, globals, and the channels that they hold.
#![tactic(auto)]

mod channels;
mod fault;
mod held;
mod instances;
mod laws;

pub use fault::HoldFault;
pub use held::Held;
pub use instances::{Instance, Instances};
pub use laws::channels_are_counted;
