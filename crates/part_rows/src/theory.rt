use crate::reader::Reader;
use actor_theory::{
    Entry, Handled, ReaderStep, faithful_is_a_run, faithful_is_causal, finish_is_faithful,
    handling_lowers, logs_are_replayed, measures_join, order_is_a_run, parts_begin, parts_keep,
    reader_is_quiet, schedule_is_a_run, schedule_makes_one, scheduled_is_faithful, work_keeps,
};
use anyhow::Result;
use span_text::{lines_are_few, no_line_where_nothing_is};
use std::alloc::{AllocError, Global};
use value_rules::{defaults_have_shapes, shapes_by_place};
use value_steps::order_is_kept;

fn entry(line: &mut Reader<'_>) -> Result<Entry<char>> {
    let sender = u8::try_from(line.count()?)?;
    let stamp = line.count()? as u64;
    Ok(Entry {
        sender,
        stamp,
        cargo: 'c',
    })
}

/// An entry with a sign as its cargo, handled with a number.
pub fn handled(alloc: Global, line: &mut Reader<'_>) -> Result<String> {
    let entry = entry(line)?;
    let number = line.count()? as u64;
    let handled = Handled { entry, number };
    Ok(format!(in alloc; "{handled:?}")?)
}

/// A step of a reader whose items are numbers.
pub fn step(alloc: Global, line: &mut Reader<'_>) -> Result<String> {
    let step: ReaderStep<u16, char> = match line.word() {
        "item" => ReaderStep::Item(u16::try_from(line.count()?)?, line.count()? as u64),
        _ => ReaderStep::Entry(entry(line)?, line.count()? as u64),
    };
    Ok(format!(in alloc; "{step:?}")?)
}

/// Calls each law once, those of actors at concrete types. They have no code.
pub fn laws(alloc: Global) -> Result<String, AllocError> {
    scheduled_is_faithful::<u64, bool, char, u8, u16>();
    schedule_makes_one::<u64, bool, char, u8, u16>();
    finish_is_faithful::<u64, bool, char, u8, u16>();
    order_is_a_run::<u64, bool, char, u8, u16>();
    faithful_is_causal::<u64, bool, char, u8, u16>();
    faithful_is_a_run::<u64, bool, char, u8, u16>();
    reader_is_quiet::<u64, bool, u8, u16>();
    schedule_is_a_run::<u64, u8>();
    parts_keep::<u64, u8>();
    work_keeps::<u64, u8>();
    parts_begin::<u64, u8>();
    logs_are_replayed::<u64, u8>();
    measures_join::<u64, bool, u8, u16>();
    handling_lowers::<u64, bool, u8, u16>();
    lines_are_few();
    no_line_where_nothing_is();
    defaults_have_shapes();
    shapes_by_place();
    order_is_kept();
    String::from_str(alloc, "called")
}
