//! Changes of variables, in place.
#![tactic(auto)]

mod variables;

pub use variables::{Change, change_variable, set_local};
