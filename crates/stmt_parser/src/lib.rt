//! A parser of statements.
#![tactic(auto)]

mod assigned;
mod choice;
mod event;
mod kinds;
mod listening;
mod rules;

pub use rules::stmt;
