ghost use Rattle.std.specs.Prelude.{◌<◌, length, IfOk};
ghost use Rattle.evt_text.specs.Forms.{AreEventTypes};

use crate::reader::Reader;
use crate::types::ticks;
use crate::values::{number_shown, shown};
use anyhow::{Result, ensure};
use epl_values::{Bytes, EventShapes, List, Value};
use evt_reader::items;
use outside::{DiskShelf, read_whole};
use record_book::Item;
use std::alloc::{AllocError, Global};
use std::rt::Files;
use typed_program::Program;

/// The most bytes of a file that a row reads.
const MOST: usize = 1_000_000;

/// The bytes of a file in the folder.
pub fn bytes_of<R: Files>(rt: &R, alloc: Global, name: &str) -> Result<Bytes> {
    Ok(read_whole(alloc, &mut DiskShelf::new(rt), name, MOST)?)
}

fn put_event(
    alloc: Global,
    out: &mut String,
    types: &EventShapes,
    channel: &str,
    event: &Value,
) -> Result<(), AllocError> {
    out.push_str("\"")?;
    out.push_str(channel)?;
    out.push_str("\" ")?;
    out.push_str(shown(alloc, event, types)?.as_str())
}

fn put_item(
    alloc: Global,
    out: &mut String,
    types: &EventShapes,
    item: &Item,
) -> Result<(), AllocError> {
    out.push_str("\n= ")?;
    match item {
        Item::Event(channel, event) => put_event(alloc, out, types, channel.as_str(), event),
        Item::Time(time) => out.push_str(format!(in alloc; "time {time}")?.as_str()),
    }
}

fn program_of_ticks(alloc: Global) -> Result<Program, AllocError>
    ensures { IfOk result (λ program. AreEventTypes program.types) }
{
    Ok(Program {
        types: ticks(alloc)?,
        monitors: List::new(alloc),
        actions: List::new(alloc),
        sites: List::new(alloc),
    })
}

fn is_read(alloc: Global, program: &Program, bytes: &[u8]) -> bool
    requires types { AreEventTypes program.now.types }
    requires size { length bytes.now < 4294967295 }
{
    items(alloc, program, bytes).is_ok()
}

/// For each place of an event file over `Tick`, from its start to its end: `+` where the file cut there is read, and `-` where a
/// line is refused.
pub fn cuts_of<R: Files>(rt: &R, alloc: Global, line: &mut Reader<'_>) -> Result<String> {
    let bytes = bytes_of(rt, alloc, line.word())?;
    ensure!(bytes.len() < 4_294_967_295, "a long file");
    let program = program_of_ticks(alloc)?;
    let mut text = String::new(alloc);
    for end in 0..bytes.len() + 1 {
        let read = is_read(alloc, &program, &bytes.as_slice()[..end]);
        text.push_str(if read { "+" } else { "-" })?;
    }
    Ok(text)
}

/// The items of an event file over `Tick`, one a line, or the line that is refused.
pub fn items_in<R: Files>(rt: &R, alloc: Global, line: &mut Reader<'_>) -> Result<String> {
    let bytes = bytes_of(rt, alloc, line.word())?;
    ensure!(bytes.len() < 4_294_967_295, "a long file");
    let program = program_of_ticks(alloc)?;
    let items = match items(alloc, &program, bytes.as_slice()) {
        Ok(items) => items,
        Err(fault) => return Ok(format!(in alloc; "{fault}")?),
    };
    let mut text = number_shown(alloc, items.len() as u64)?;
    text.push_str(" items")?;
    for item in items.as_slice() {
        put_item(alloc, &mut text, &program.types, item)?;
    }
    Ok(text)
}
