//! A parser of declarations and whole program files.
#![tactic(auto)]

mod action;
mod event_decl;
mod files;
mod monitor;
mod pieces;
mod program;
mod region;

pub use files::{discard, with_unit};
pub use pieces::cut;
pub use program::unit_read;
pub use region::Region;
