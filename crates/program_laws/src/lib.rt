//! What holds of programs that the checker accepts: laws of its definitions, named for the calls that cite them.
#![tactic(auto)]

mod laws;

pub use laws::accepted_programs_are_typed;
