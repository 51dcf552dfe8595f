//! Rows of the front end: each line of the standard input asks what its text is read as, and is told with the answer.
#![tactic(auto)]

mod bench;
mod draft;
mod event_outline;
mod expr_outline;
mod outcome;
mod programs;
mod stmt_outline;
mod tokens;
mod trees;
mod type_outline;
mod unit_outline;

use anyhow::{Context, Result};
use bench::Bench;
use std::thread::Builder;

/// The stack on which lines are answered, in bytes: the deepest trees take more than a program begins with.
const STACK: usize = 64 << 20;

fn main(rt: HostRuntime) -> Result<()> {
    let child = Builder::new()
        .stack_size(STACK)
        .spawn(&rt, move || answer_lines(&rt))?;
    child.join(&rt)
}

fn answer_lines(rt: &HostRuntime) -> Result<()> {
    let mut bench = Bench::new(rt.alloc());
    let mut number: u64 = 0;
    for line in rt.lines(rt.alloc()) {
        let line = line?;
        number = number.saturating_add(1);
        let answer = bench
            .answer(rt, line.as_str())
            .context(format_args!("line {number}"))?;
        println!(rt; "{line}")?;
        print!(rt; "{answer}")?;
    }
    Ok(())
}
