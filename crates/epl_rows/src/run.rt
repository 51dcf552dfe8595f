use crate::row::{Made, Row};
use anyhow::{Result, bail, ensure};
use correlator_run::correlate_serial;
use epl_values::{Bytes, List, Text};
use outside::{
    Calls, DiskShelf, FileFault, HonestShelf, HonestSink, MemoryShelf, MemorySink, Shelf, Sink,
    StoredFile, StoredFiles, read_whole,
};
use std::alloc::{AllocError, Global};
use std::rt::Files;

/// The most bytes of a file that a row takes into memory.
const MOST: usize = 131_072;

/// How many bytes an output or a message takes at a call.
const PIECE: usize = 4096;

/// What a run answered: its status, the report as it was taken, and the line on standard error.
#[derive(Drop)]
pub struct Answer {
    pub status: u8,
    pub report: Bytes,
    pub message: Bytes,
}

fn words_of(alloc: Global, text: &str) -> Result<Vec<String>, AllocError> {
    let mut words = Vec::new(alloc);
    for word in text.split_whitespace() {
        words.push(String::from_str(alloc, word)?)?;
    }
    Ok(words)
}

fn stored(alloc: Global, name: &str, bytes: Bytes) -> Result<StoredFile, AllocError> {
    let name = Text::of(alloc, name)?;
    Ok(StoredFile { name, bytes })
}

/// The files among the words, and the long one.
fn files<R: Files>(
    rt: &R,
    alloc: Global,
    words: &[String],
    made: &Made<'_>,
) -> Result<StoredFiles> {
    let mut files = List::new(alloc);
    if let Some((count, name)) = made.long {
        let mut signs = Vec::new(alloc);
        signs.resize(count, b'#')?;
        files.push(stored(alloc, name, Bytes::from_vec(signs))?)?;
    }
    for word in words {
        match read_whole(alloc, &mut DiskShelf::new(rt), word.as_str(), MOST) {
            Ok(bytes) => files.push(stored(alloc, word.as_str(), bytes)?)?,
            Err(FileFault::Missing) => {}
            Err(_) => bail!("a file that can't be read"),
        }
    }
    Ok(files)
}

fn calls(alloc: Global, failing: Option<u64>) -> Result<Calls, AllocError> {
    let mut calls = List::new(alloc);
    if let Some(call) = failing {
        calls.push(call)?;
    }
    Ok(calls)
}

fn answered(
    alloc: Global,
    status: u8,
    report: &[u8],
    message: &[u8],
) -> Result<Answer, AllocError> {
    let report = Bytes::of(alloc, report)?;
    let message = Bytes::of(alloc, message)?;
    Ok(Answer {
        status,
        report,
        message,
    })
}

/// The status of the top call over any files and outputs.
fn called<H: Shelf, W: Sink>(
    alloc: Global,
    words: &[String],
    shelf: &mut H,
    out: &mut W,
    err: &mut MemorySink,
) -> u8 {
    correlate_serial(alloc, words, shelf, out, err).status
}

/// A run over the files of the folder.
fn run_real<R: Files>(rt: &R, alloc: Global, words: &[String]) -> Result<Answer, AllocError> {
    let mut shelf = DiskShelf::new(rt);
    let mut out = MemorySink::new(alloc, PIECE, List::new(alloc));
    let mut err = MemorySink::new(alloc, PIECE, List::new(alloc));
    let status = called(alloc, words, &mut shelf, &mut out, &mut err);
    answered(alloc, status, out.taken(), err.taken())
}

/// A run whose calls of the files and the output fail as planned.
fn run_planned(
    alloc: Global,
    words: &[String],
    files: StoredFiles,
    made: &Made<'_>,
) -> Result<Answer> {
    ensure!(made.piece > 0, "a piece has at least one byte");
    let mut shelf = MemoryShelf::new(files, calls(alloc, made.failing_read)?);
    let mut out = MemorySink::new(alloc, made.piece, calls(alloc, made.failing_write)?);
    let mut err = MemorySink::new(alloc, PIECE, List::new(alloc));
    let status = called(alloc, words, &mut shelf, &mut out, &mut err);
    Ok(answered(alloc, status, out.taken(), err.taken())?)
}

/// A run whose output has room for so many bytes.
fn run_within(
    alloc: Global,
    words: &[String],
    files: StoredFiles,
    room: usize,
) -> Result<Answer, AllocError> {
    let mut shelf = HonestShelf::new(files);
    let mut out = HonestSink::new(alloc);
    out.reserve(room)?;
    let mut err = MemorySink::new(alloc, PIECE, List::new(alloc));
    let status = called(alloc, words, &mut shelf, &mut out, &mut err);
    answered(alloc, status, out.taken(), err.taken())
}

/// Runs a row.
pub fn run<R: Files>(rt: &R, alloc: Global, row: Row<'_>) -> Result<Answer> {
    let words = words_of(alloc, row.words)?;
    let Some(made) = row.made else {
        return Ok(run_real(rt, alloc, &words)?);
    };
    let files = files(rt, alloc, &words, &made)?;
    match made.room {
        Some(room) => Ok(run_within(alloc, &words, files, room)?),
        None => run_planned(alloc, &words, files, &made),
    }
}
