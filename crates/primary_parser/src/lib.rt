//! A parser of types, literals and primaries, and the reading of single tokens. The grammar of whole expressions stands here
//! too, since what lies in a primary is one.
#![tactic(auto)]

mod literal;
mod part;
mod primary;
mod rules;
pub mod token;
mod types;
pub mod word;

pub use part::Part;
pub use rules::Rules;
pub use types::{MAX_DEPTH, type_at};
