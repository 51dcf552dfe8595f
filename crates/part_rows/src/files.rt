use crate::events::bytes_of;
use crate::reader::{DEPTH, Reader};
use crate::values::{number_shown, shown};
use anyhow::{Result, bail, ensure};
use epl_values::{Bytes, EventShapes, List, Text, Value};
use outside::{
    Calls, DiskShelf, FileFault, Gate, HonestShelf, HonestSink, MemoryShelf, MemorySink, OpenGate,
    Sink, StoredFile, StoredFiles, StreamSink, WriteFault, put_all, read_whole,
};
use std::alloc::{AllocError, Global};
use std::rt::Files;

/// The most bytes of a file that are shown.
const SHOWN: usize = 16;

/// The files that shelves in memory hold; of others they know nothing.
const HELD: [&str; 3] = ["abc.txt", "empty.txt", "long.txt"];

fn held<R: Files>(rt: &R, alloc: Global) -> Result<StoredFiles> {
    let mut files = List::new(alloc);
    for name in HELD {
        let bytes = bytes_of(rt, alloc, name)?;
        let name = Text::of(alloc, name)?;
        files.push(StoredFile { name, bytes })?;
    }
    Ok(files)
}

/// The number of the failing call behind the rest of the line, if one stands there.
fn calls(alloc: Global, line: &mut Reader<'_>) -> Result<Calls> {
    let mut calls = List::new(alloc);
    if !line.is_done() {
        calls.push(line.count()? as u64)?;
    }
    Ok(calls)
}

fn bytes_shown(
    alloc: Global,
    types: &EventShapes,
    answer: &Result<Bytes, FileFault>,
) -> Result<String> {
    let bytes = match answer {
        Ok(bytes) => bytes,
        Err(fault) => return Ok(format!(in alloc; "{fault}")?),
    };
    let mut out = number_shown(alloc, bytes.len() as u64)?;
    out.push_str(" bytes")?;
    if bytes.len() <= SHOWN {
        out.push_str(" ")?;
        out.push_str(quoted(alloc, types, bytes.as_slice())?.as_str())?;
    }
    Ok(out)
}

/// A file of the folder or of a shelf in memory, read whole.
pub fn whole<R: Files>(
    rt: &R,
    alloc: Global,
    types: &EventShapes,
    line: &mut Reader<'_>,
) -> Result<String> {
    let shelf = line.word();
    let name = line.word();
    let most = line.count()?;
    let answer = match shelf {
        "disk" => read_whole(alloc, &mut DiskShelf::new(rt), name, most),
        "honest" => read_whole(alloc, &mut HonestShelf::new(held(rt, alloc)?), name, most),
        "memory" => {
            let mut shelf = MemoryShelf::new(held(rt, alloc)?, calls(alloc, line)?);
            read_whole(alloc, &mut shelf, name, most)
        }
        _ => bail!("no such shelf"),
    };
    bytes_shown(alloc, types, &answer)
}

fn put_shown(answer: Result<(), WriteFault>) -> &'static str {
    match answer {
        Ok(()) => "put",
        Err(_) => "not put",
    }
}

/// Puts each string of the line, and tells of each whether it was put.
fn put_each<W: Sink>(alloc: Global, sink: &mut W, line: &mut Reader<'_>) -> Result<String> {
    let mut text = String::new(alloc);
    for _ in 0..DEPTH {
        if line.is_done() {
            break;
        }
        let piece = line.text(alloc)?;
        text.push_str(put_shown(put_all(sink, piece.as_str().as_bytes())))?;
        text.push_str(", ")?;
    }
    Ok(text)
}

/// Bytes as a string of the language.
fn quoted(alloc: Global, types: &EventShapes, bytes: &[u8]) -> Result<String> {
    let Ok(text) = str::from_utf8(bytes) else {
        bail!("the bytes are no text");
    };
    Ok(shown(alloc, &Value::Text(Text::of(alloc, text)?), types)?)
}

/// What was told of each string, and what was taken of all.
fn with_taken(
    alloc: Global,
    types: &EventShapes,
    mut told: String,
    taken: &[u8],
) -> Result<String> {
    told.push_str("taken ")?;
    told.push_str(quoted(alloc, types, taken)?.as_str())?;
    Ok(told)
}

/// What a sink in memory takes of strings: `memory PIECE FAILING`, where the sink takes so many bytes at a call.
pub fn put_in_memory(alloc: Global, types: &EventShapes, line: &mut Reader<'_>) -> Result<String> {
    let piece = line.count()?;
    ensure!(piece > 0, "a piece has at least one byte");
    let mut sink = MemorySink::new(alloc, piece, calls(alloc, line)?);
    let puts = put_each(alloc, &mut sink, line)?;
    with_taken(alloc, types, puts, sink.taken())
}

/// What a sink with room for so many bytes takes of strings.
pub fn put_in_room(alloc: Global, types: &EventShapes, line: &mut Reader<'_>) -> Result<String> {
    let mut sink = HonestSink::new(alloc);
    sink.reserve(line.count()?)?;
    let puts = put_each(alloc, &mut sink, line)?;
    with_taken(alloc, types, puts, sink.taken())
}

/// Puts strings on the standard output, or a string and then a byte that is no text on the standard error.
pub fn put_on_stream<R: Print + Eprint>(
    rt: &R,
    alloc: Global,
    line: &mut Reader<'_>,
) -> Result<String> {
    let on_error = line.word() == "error";
    let mut sink = StreamSink::new(rt, on_error);
    let mut told = put_each(alloc, &mut sink, line)?;
    if on_error {
        told.push_str("then ")?;
        told.push_str(put_shown(put_all(&mut sink, b"\xff")))?;
    } else {
        told.push_str("done")?;
    }
    Ok(told)
}

fn pass<G: Gate>(gate: &G) {
    gate.before(1, 1);
    gate.after(1, 1);
}

/// Passes an open gate before and behind a turn.
pub fn gate(alloc: Global) -> Result<String, AllocError> {
    pass(&OpenGate);
    String::from_str(alloc, "passed")
}
