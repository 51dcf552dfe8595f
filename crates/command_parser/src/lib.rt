//! A parser of statements that hold no other, and of what statements and declarations are made of.
#![tactic(auto)]

mod calls;
mod commands;
mod level;
mod parts;
mod places;
pub mod word;

pub use calls::call;
pub use commands::command;
pub use parts::{ended, expr, name, sees_else, typed};
pub use places::place;
