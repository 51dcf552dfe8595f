//! Statements, actions and members: the typed program of the files, or their first typing fault. `Made` and `State`, which its
//! definitions pass on, are named for the laws about them.
#![tactic(auto)]

mod action;
mod body;
mod callback;
mod captures;
mod command;
mod endings;
mod local;
mod made;
mod member;
mod number;
mod program;
mod rows;
mod spawn;
mod state;

pub use made::Made;
pub use program::check;
pub use state::State;
pub use type_table::CheckFault;
