//! Event expressions in a scope: the typed term, or the first fault.
#![tactic(auto)]

mod bound;
mod check;
mod constraint;
mod duration;
mod names;
mod operand;
mod reader;
mod sofar;
mod template;
mod terms;
mod value;

pub use bound::inner_scope;
pub use check::check_listener;
pub use terms::term;
