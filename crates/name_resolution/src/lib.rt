//! That typed programs are trees with names resolved: the relation, and the law that it holds of every accepted program.
#![tactic(auto)]

mod laws;

pub use laws::accepted_programs_resolve;
