//! The run on one thread: boot, and then rounds in which each context and the reader handle one thing.
#![tactic(auto)]

mod finish;
mod rounds;
mod start;
mod turns;
mod world;

pub use finish::run;
pub use world::World;
