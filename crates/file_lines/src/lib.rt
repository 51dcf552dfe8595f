//! The lines of a file, byte by byte: whether they are UTF-8 is asked of each line by itself.
#![tactic(auto)]

mod lines;

pub use lines::{FileLines, without_mark};
