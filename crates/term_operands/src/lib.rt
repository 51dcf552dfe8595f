//! The operands of event expressions: what they come to, the spans of templates, and which events fit these.
#![tactic(auto)]

mod copies;
mod fits;
mod operands;
mod spans;

pub use copies::{copy_leaf, extend};
pub use fits::{heard, hears, is_due, is_late, is_ordinary};
pub use operands::Origin;
