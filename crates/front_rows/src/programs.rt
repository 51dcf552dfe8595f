//! What the checker and the reader of programs tell of program files.

ghost use Rattle.std.specs.Prelude.{◌<◌, ◌≤◌, length, IfOk};
ghost use Rattle.std.specs.List.{AllByRecursion};

use crate::outcome::{put_number, refused, refused_in};
use crate::unit_outline::put_unit;
use anyhow::{Result, bail};
use epl_syntax::{SyntaxFault, discard, units};
use epl_tree::Units;
use epl_values::{Bytes, List};
use program_check::check;
use program_reader::{ProgramFault, program_from};
use std::alloc::{AllocError, Global};
use type_table::{CheckFault, Table, gather};
use typed_program::Program;

/// How many files a program has.
const MOST_FILES: usize = 64;

/// The declarations of a program file; of a long file they aren't told.
pub fn unit_told(alloc: Global, file: Vec<u8>, long: bool) -> Result<String> {
    let files = vec![in alloc; file]?;
    let trees = match units_of(alloc, files.as_slice()) {
        Ok(trees) => trees,
        Err(ProgramFault::Lex(_, spot)) => return refused(alloc, "lex", spot),
        Err(ProgramFault::Syntax(_, spot)) => return refused(alloc, "syntax", spot),
        Err(_) => bail!("out of memory"),
    };
    let told = units_outlined(alloc, &trees, long);
    discard(trees);
    told
}

fn units_outlined(alloc: Global, trees: &Units, long: bool) -> Result<String> {
    let mut out = String::new(alloc);
    for tree in trees.as_slice() {
        put_number(&mut out, "= ", tree.declarations.len())?;
        out.push_str(" declared")?;
        if !long {
            out.push_str(":")?;
            put_unit(&mut out, tree)?;
        }
        out.push_str("\n")?;
    }
    Ok(out)
}

/// What is gathered of files: their event types with their numbers, and the heads of their monitors.
pub fn table_told(alloc: Global, files: &[Vec<u8>]) -> Result<String> {
    let trees = match units_of(alloc, files) {
        Ok(trees) => trees,
        Err(fault) => return refusal_told(alloc, fault),
    };
    let told = gather(alloc, &trees);
    discard(trees);
    match told {
        Ok(table) => table_lines(alloc, &table),
        Err(fault) => refusal_told(alloc, typing(fault)),
    }
}

fn table_lines(alloc: Global, table: &Table) -> Result<String> {
    let mut out = String::new(alloc);
    for event in table.types.as_slice() {
        let name = event.name.as_str();
        let Some(number) = table.event_of(name) else {
            bail!("a type without a number");
        };
        out.push_str("= event ")?;
        out.push_str(name)?;
        put_number(&mut out, ": number ", number)?;
        put_number(&mut out, ", fields ", event.fields.len())?;
        out.push_str("\n")?;
    }
    for monitor in table.monitors.as_slice() {
        out.push_str("= monitor ")?;
        out.push_str(monitor.name.as_str())?;
        put_number(&mut out, ": globals ", monitor.globals.len())?;
        put_number(&mut out, ", actions ", monitor.actions.len())?;
        out.push_str("\n")?;
    }
    Ok(out)
}

/// Whether files are accepted, and how many parts their program has, or their first fault.
pub fn check_told(alloc: Global, files: &[Vec<u8>]) -> Result<String> {
    let trees = match units_of(alloc, files) {
        Ok(trees) => trees,
        Err(fault) => return refusal_told(alloc, fault),
    };
    let told = check(alloc, &trees);
    discard(trees);
    match told {
        Ok(program) => {
            let parts = accepted(alloc, &program);
            program_check::discard(program);
            parts
        }
        Err(fault) => refusal_told(alloc, typing(fault)),
    }
}

/// The same as `check_told`, as the reader of programs tells it.
pub fn program_told(alloc: Global, files: &[Vec<u8>]) -> Result<String> {
    let texts = texts_of(alloc, files)?;
    if texts.len() > MOST_FILES {
        bail!("too many files");
    }
    match program_from(alloc, &texts) {
        Ok(program) => {
            let parts = accepted(alloc, &program);
            program_check::discard(program);
            parts
        }
        Err(fault) => refusal_told(alloc, fault),
    }
}

fn typing(fault: CheckFault) -> ProgramFault {
    match fault {
        CheckFault::Typing(code, file, spot) => ProgramFault::Typing(code, file, spot),
        CheckFault::Memory => ProgramFault::Memory,
    }
}

/// The trees of files.
fn units_of(alloc: Global, files: &[Vec<u8>]) -> Result<Units, ProgramFault>
    ensures { IfOk result (λ trees. length trees ≤ 64) }
{
    let Ok(texts) = texts_of(alloc, files) else {
        return Err(ProgramFault::Memory);
    };
    if texts.len() > MOST_FILES {
        return Err(ProgramFault::Memory);
    }
    match units(alloc, &texts) {
        Ok(trees) => Ok(trees),
        Err(SyntaxFault::Lex(file, spot)) => Err(ProgramFault::Lex(file, spot)),
        Err(SyntaxFault::Syntax(file, spot)) => Err(ProgramFault::Syntax(file, spot)),
        Err(SyntaxFault::Memory) => Err(ProgramFault::Memory),
    }
}

/// Copies of files; there is no memory for one that is too long.
fn texts_of(alloc: Global, files: &[Vec<u8>]) -> Result<List<Bytes>, AllocError>
    ensures { IfOk result (AllByRecursion (λ text. length text < 4294967295)) }
{
    let mut texts = List::new(alloc);
    'files: for file in files {
        let text = short_copy(alloc, file.as_slice())?;
        texts.push(text)?;
    }
    Ok(texts)
}

fn short_copy(alloc: Global, file: &[u8]) -> Result<Bytes, AllocError>
    ensures { IfOk result (λ text. length text < 4294967295) }
{
    if file.len() >= 4294967295 {
        return Err(AllocError);
    }
    Bytes::of(alloc, file)
}

fn accepted(alloc: Global, program: &Program) -> Result<String> {
    let mut out = String::new(alloc);
    put_number(&mut out, "= accepted: types ", program.types.len())?;
    put_number(&mut out, ", monitors ", program.monitors.len())?;
    put_number(&mut out, ", actions ", program.actions.len())?;
    put_number(&mut out, ", sites ", program.sites.len())?;
    out.push_str("\n")?;
    Ok(out)
}

fn refusal_told(alloc: Global, fault: ProgramFault) -> Result<String> {
    match fault {
        ProgramFault::Lex(file, spot) => refused_in(alloc, "lex", file, spot),
        ProgramFault::Syntax(file, spot) => refused_in(alloc, "syntax", file, spot),
        ProgramFault::Typing(code, file, spot) => {
            let mut cause = String::new(alloc);
            put_number(&mut cause, "type ", usize::from(code))?;
            refused_in(alloc, cause.as_str(), file, spot)
        }
        ProgramFault::Unbuilt(file, spot) => refused_in(alloc, "unbuilt", file, spot),
        ProgramFault::Memory => Err(AllocError)?,
    }
}
