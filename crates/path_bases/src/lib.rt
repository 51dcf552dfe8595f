//! The variables of a running body, and where paths from them have come to.
#![tactic(auto)]

mod base;
mod globals;
mod locals;
mod stops;

pub use base::{Base, global_base, held_unless, settle, stepped, value_at};
pub use globals::global;
pub use locals::{Got, Gots, local, local_base, owned, seen};
pub use stops::stop_of;
