//! What a walker over bodies asks of values: reading, computing, parts, and changes in place.
#![tactic(auto)]

mod arithmetic;
mod changes;
mod collections;
mod comparing;
mod entries;
mod laws;
mod parts;
mod reading;
mod spawning;
mod texts;
mod trouble;

pub use arithmetic::{calculated, negated};
pub use changes::{alter, store};
pub use collections::{keys_of, place_of, size_of};
pub use comparing::compared;
pub use entries::{at_key, has_key, put_entry};
pub use laws::order_is_kept;
pub use parts::{follow, part};
pub use reading::{birth, integer, is_text, letters, natural, truth};
pub use spawning::{emptied, starting, taken_along};
pub use texts::{bounded, characters, joined, substring};
pub use trouble::Trouble;
