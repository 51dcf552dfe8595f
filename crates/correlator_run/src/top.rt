ghost use Rattle.std.specs.Prelude.{◌≡◌, map, nat_eq, string_bytes, if◌then◌else◌, IfOk};
ghost use Rattle.std.specs.List.{list_any};
ghost use Rattle.outside.specs.Counts.{Counts};
ghost use Rattle.outside.specs.Told.{files_of};
ghost use Rattle.record_book.specs.Report.{report_of};
ghost use Rattle.correlator_run.specs.Causes.{status_of};
ghost use Rattle.correlator_run.specs.Promise.{IsWritten, KeepsPromise, is_spent};
ghost use Rattle.correlator_run.specs.Steps.{Finishes, code_of};

use crate::Refusal;
use crate::load::{Input, load};
use crate::messages::{tell_refusal, tell_spent, tell_write_fault};
use epl_values::Bytes;
use outside::{Shelf, Sink, put_all};
use record_book::{ContextRecord, Record};
use run_face::report;
use std::alloc::Global;
use typed_program::Program;
use world_serial::run;

/// How a run ended: its status, and the record of what each context handled and printed, where there is one.
#[derive(Drop)]
pub struct Outcome {
    pub status: u8,
    pub kept: Option<Record>,
}

/// A run whose report is still to be written.
#[derive(Drop)]
struct Finished {
    program: Program,
    kept: Record,
    text: Bytes,
}

fn finish<H: Shelf>(alloc: Global, words: &[String], shelf: &mut H) -> Result<Finished, Refusal>
    ensures finishes { Finishes (λ f. (f.program, f.kept)) (map string_bytes words.now) (files_of (H.told shelf.old)) (H.told shelf.new) result }
    ensures text { IfOk result (λ f. f.text ≡ report_of f.program f.kept) }
    ensures faults { Counts (nat_eq (code_of result) 5) (H.faults shelf.old) (H.faults shelf.new) }
    ensures missed { Counts (nat_eq (code_of result) 8) (H.missed shelf.old) (H.missed shelf.new) }
{
    let Input {
        named,
        program,
        items,
    } = load(alloc, words, shelf)?;
    let kept = run(alloc, &program, items, named.settings)?;
    let text = report(alloc, &kept, &program)?;
    Ok(Finished {
        program,
        kept,
        text,
    })
}

fn status_of(why: &Refusal) -> u8
    ensures { result ≡ status_of why.now }
{
    match why {
        Refusal::Words => 1,
        Refusal::Missing(_) => 8,
        Refusal::Read(_) => 5,
        Refusal::TooLong(_) => 9,
        Refusal::Program(..) => 2,
        Refusal::Events(_, _) => 3,
        Refusal::Memory => 4,
    }
}

fn any_spent(contexts: &[ContextRecord]) -> bool
    ensures { result ≡ list_any (λ c. c.spent) contexts.now }
{
    contexts.iter().any(|context| context.spent)
}

/// The status of a run whose report is written; tells where a context is spent.
fn tell_done<V: Sink>(err: &mut V, kept: &Record) -> u8
    ensures { result ≡ (if is_spent kept.now then 7 else 0) }
{
    if any_spent(kept.contexts.as_slice()) {
        tell_spent(err);
        7
    } else {
        0
    }
}

/// Writes the report, and tells what became of it.
fn write<W: Sink, V: Sink>(out: &mut W, err: &mut V, kept: &Record, text: &[u8]) -> u8
    ensures written { IsWritten result kept.now text.now (record { faults = W.faults out.old; taken = W.taken out.old; room = W.room out.old }) (record { faults = W.faults out.new; taken = W.taken out.new; room = W.room out.new }) }
    ensures faults { Counts (nat_eq result 6) (W.faults out.old) (W.faults out.new) }
{
    match put_all(out, text) {
        Err(_) => {
            tell_write_fault(err);
            6
        }
        Ok(()) => tell_done(err, kept),
    }
}

/// Runs what the words name, one context after another, and writes the report on `out` and one line on `err` where the
/// status isn't 0. The words are those of a command line without the program's own name: `run --serial [--fuel N] --events
/// FILE PROGRAM..`, with 1 to 64 program files. The statuses are 0 for a run that is done, 7 for one in which a context is
/// spent, and else the refusals: 1 for words, 8, 5 and 9 for a file that is missing, unread or too long, 2 for a program, 3
/// for an event file, 6 for a failed write, and 4 for want of memory. It waits for nobody.
pub fn correlate_serial<H: Shelf, W: Sink, V: Sink>(
    alloc: Global,
    words: &[String],
    shelf: &mut H,
    out: &mut W,
    err: &mut V,
) -> Outcome
    ensures { KeepsPromise (map string_bytes words.now) (record { shelf = record { faults = H.faults shelf.old; missed = H.missed shelf.old; told = H.told shelf.old }; out = record { faults = W.faults out.old; taken = W.taken out.old; room = W.room out.old } }) (record { shelf = record { faults = H.faults shelf.new; missed = H.missed shelf.new; told = H.told shelf.new }; out = record { faults = W.faults out.new; taken = W.taken out.new; room = W.room out.new } }) result.status result.kept }
{
    match finish(alloc, words, shelf) {
        Ok(
            Finished {
                program: _,
                kept,
                text,
            },
        ) => {
            let status = write(out, err, &kept, text.as_slice());
            Outcome {
                status,
                kept: Some(kept),
            }
        }
        Err(why) => {
            tell_refusal(err, &why);
            Outcome {
                status: status_of(&why),
                kept: None,
            }
        }
    }
}
