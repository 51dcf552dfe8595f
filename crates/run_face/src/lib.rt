//! What a user meets: the words of a command line, and the report of a run.
#![tactic(auto)]

mod reporting;
mod words;

pub use reporting::report;
pub use words::{RunWords, WordsFault, read_words};
