//! Runs rows of the language: each line of the input is a command of the correlator as a user types it, and is answered by
//! what that user would see. An empty line and one that begins with `#` are written as they stand.
#![tactic(auto)]

mod row;
mod run;

use anyhow::{Context, Result};
use row::Row;
use run::run;
use std::alloc::Global;
use std::io::{self, Write};
use std::rt::Files;

/// Writes bytes, and ends their last line where it has no end.
fn write_bytes<R: Print>(rt: &R, bytes: &[u8]) -> Result<()> {
    io::writer(rt).write_all(bytes)?;
    if !bytes.is_empty() && !bytes.ends_with(b"\n") {
        println!(rt; "\n(no end of line)")?;
    }
    Ok(())
}

/// Answers one line.
fn tell<R: Files + Print>(rt: &R, alloc: Global, line: &str) -> Result<()> {
    if line.is_empty() || line.starts_with('#') {
        println!(rt; "{line}")?;
        return Ok(());
    }
    let answer = run(rt, alloc, Row::from_line(line)?)?;
    println!(rt; "$ {line}")?;
    write_bytes(rt, answer.report.as_slice())?;
    write_bytes(rt, answer.message.as_slice())?;
    println!(rt; "status {}", answer.status)?;
    Ok(())
}

fn main(rt: HostRuntime) -> Result<()> {
    let alloc = rt.alloc();
    let mut number: u64 = 0;
    for line in rt.lines(alloc) {
        let line = line?;
        number = number.saturating_add(1);
        tell(&rt, alloc, line.as_str()).context(format_args!("line {number}"))?;
    }
    Ok(())
}
