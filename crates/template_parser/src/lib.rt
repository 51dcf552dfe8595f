//! A parser of templates of events, with their constraints and durations.
#![tactic(auto)]

mod constraint;
mod duration;
mod head;
mod range;
mod template;
mod test;
pub mod word;

pub use duration::span_at;
pub use template::template_at;
