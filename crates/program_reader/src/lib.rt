//! From the bytes of program files to their typed program, or to why there is none.
#![tactic(auto)]

mod fault;
mod program;

pub use fault::ProgramFault;
pub use program::program_from;
pub use program_check::discard;
