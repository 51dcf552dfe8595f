//! Runs rows of the parts: each line of the input names a part and what it is given, and is answered by what the part gives.
//! An empty line and one that begins with `#` are written as they stand.
#![tactic(auto)]

mod changing;
mod events;
mod files;
mod reader;
mod reading;
mod texts;
mod theory;
mod types;
mod values;

use anyhow::{Context, Result, ensure};
use epl_values::EventShapes;
use reader::Reader;
use std::alloc::Global;
use std::rt::Files;

/// Rows that change or compute values.
fn value_answer(
    alloc: Global,
    types: &EventShapes,
    command: &str,
    line: &mut Reader<'_>,
) -> Result<String> {
    match command {
        "text" | "cost" | "order" | "default" | "fits" => values::answer(
            alloc, types, command, line,
        ),
        "part" | "follow" => reading::part_answer(alloc, types, command, line),
        "bounded" => reading::bounded_text(alloc, types, line),
        "place" => reading::place(alloc, types, line),
        "entry" => reading::entry(alloc, types, line),
        "calculate" => changing::calculate(alloc, types, line),
        "compare" => changing::compare(alloc, types, line),
        "substring" => changing::cut(alloc, types, line),
        "join" => changing::join(alloc, types, line),
        "put" => changing::put(alloc, types, line),
        "store" => changing::stored(alloc, types, line),
        "alter" => changing::altered(alloc, types, line),
        "along" => changing::along(alloc, types, line),
        "leaves" => changing::leaves(alloc, line),
        _ => reading::answer(alloc, types, command, line),
    }
}

/// Rows of texts, files, streams and the theory, and else those of values.
fn answer<R: Files + Print + Eprint>(
    rt: &R,
    alloc: Global,
    types: &EventShapes,
    line: &mut Reader<'_>,
) -> Result<String> {
    match line.word() {
        "spot" => texts::spot(alloc, line),
        "lines" => texts::lines(alloc, types, line),
        "blanks" => texts::blanks(alloc, types, line),
        "read" => texts::read(alloc, line),
        "items" => events::items_in(rt, alloc, line),
        "cuts" => events::cuts_of(rt, alloc, line),
        "whole" => files::whole(rt, alloc, types, line),
        "memory" => files::put_in_memory(alloc, types, line),
        "room" => files::put_in_room(alloc, types, line),
        "stream" => files::put_on_stream(rt, alloc, line),
        "gate" => Ok(files::gate(alloc)?),
        "handled" => theory::handled(alloc, line),
        "step" => theory::step(alloc, line),
        "laws" => Ok(theory::laws(alloc)?),
        command => value_answer(alloc, types, command, line),
    }
}

/// Answers one line.
fn tell<R: Files + Print + Eprint>(
    rt: &R,
    alloc: Global,
    types: &EventShapes,
    line: &str,
) -> Result<()> {
    println!(rt; "{line}")?;
    if line.is_empty() || line.starts_with('#') {
        return Ok(());
    }
    let mut reader = Reader::new(line);
    let text = answer(rt, alloc, types, &mut reader)?;
    ensure!(reader.is_done(), "more than the command takes");
    println!(rt; "= {text}")?;
    Ok(())
}

fn main(rt: HostRuntime) -> Result<()> {
    let alloc = rt.alloc();
    let types = types::shapes(alloc)?;
    let mut number: u64 = 0;
    for line in rt.lines(alloc) {
        let line = line?;
        number = number.saturating_add(1);
        tell(&rt, alloc, &types, line.as_str()).context(format_args!("line {number}"))?;
    }
    Ok(())
}
