//! Runs monitors over a recorded event file, and prints what each context prints.
#![tactic(auto)]

use outside::{DiskShelf, StreamSink};
use std::io::ErrorKind;
use std::process::ExitCode;
use std::{env, io};
use tall_run::{Call, correlate_tall};

/// The status where the words aren't texts in UTF-8.
const WORDS_UNREADABLE: u8 = 15;

/// The status where there is no memory for the words.
const NO_MEMORY: u8 = 4;

/// The words of the command line without the program's own name.
fn words_of(rt: &HostRuntime) -> io::Result<Vec<String>> {
    let mut words = Vec::new(rt.alloc());
    for word in env::args(rt)?.skip(1) {
        words.push(word)?;
    }
    Ok(words)
}

/// The status where there are no words. It is told on the standard error where there is no memory for them.
fn without_words(rt: &HostRuntime, why: &io::Error) -> ExitCode {
    if why.kind() != ErrorKind::OutOfMemory {
        return ExitCode::from(WORDS_UNREADABLE);
    }
    // A line that can't be written changes no status.
    drop(eprintln!(rt; "epl: no memory"));
    ExitCode::from(NO_MEMORY)
}

fn main(rt: HostRuntime) -> ExitCode {
    let words = match words_of(&rt) {
        Ok(words) => words,
        Err(why) => return without_words(&rt, &why),
    };
    let call = Call {
        words,
        shelf: DiskShelf::new(rt),
        out: StreamSink::new(rt, false),
        err: StreamSink::new(rt, true),
    };
    let left = correlate_tall(&rt, rt.alloc(), call);
    ExitCode::from(left.status)
}
