//! What a program means: contexts and the reader as actors, and which records are faithful to it.
#![tactic(auto)]

mod laws;

pub use laws::faithful_in_words;
