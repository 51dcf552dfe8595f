//! What a context is, and how it handles what it receives, by naive evaluation: every live listener is tested in order of birth.
#![tactic(auto)]

mod context;
mod laws;

pub use context::{Instance, Instances, Waiting, Waitings};
pub use laws::front_settles;
