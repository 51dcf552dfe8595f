//! A list type: a struct over a `Vec` that contracts see as the list of its items.
#![tactic(auto)]

mod list;

pub use list::List;
pub use std::alloc::AllocError as Memory;
