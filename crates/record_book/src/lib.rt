//! What passes between actors, what is kept of a run, and its report.
#![tactic(auto)]

mod cargo;
mod item;
mod record;

pub use cargo::{Cargo, Line, Lines};
pub use item::{Item, Items};
pub use record::{
    ContextRecord, ContextRecords, Entries, Entry, Handled, HandledList, ReaderRecord, ReaderStep,
    ReaderSteps, Record, Settings,
};
