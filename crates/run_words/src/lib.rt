//! The words of a command line that runs programs.
#![tactic(auto)]

mod naming;
mod numbers;
mod options;
mod words;

pub use words::{RunWords, WordsFault, read_words};
