//! Lines and places of a text.
#![tactic(auto)]

mod laws;
mod lines;
mod spot;

pub use laws::{lines_are_few, no_line_where_nothing_is};
pub use lines::{TextLines, lines_of};
pub use spot::{Spot, spot_at};
