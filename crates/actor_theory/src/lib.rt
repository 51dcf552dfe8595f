//! What actors send each other, in whatever order they run: a theory over any language of handlers.
#![tactic(auto)]

mod entry;
mod laws;

pub use entry::{Entry, Handled, ReaderStep};
pub use laws::{
    faithful_is_a_run, faithful_is_causal, finish_is_faithful, handling_lowers, logs_are_replayed,
    measures_join, order_is_a_run, parts_begin, parts_keep, reader_is_quiet, schedule_is_a_run,
    schedule_makes_one, scheduled_is_faithful, work_keeps,
};
