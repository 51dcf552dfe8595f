ghost use Rattle.std.specs.Prelude.{◌≡◌, ◌++◌, slice_get, IfOk, OnOk};
ghost use Rattle.std.specs.List.{flat_map};
ghost use Rattle.record_book.specs.Report.{context_text, escaped, fault_text, head_of, level_name, line_text, monitor_name, name_of, report_of, spent_text, told_text};

use action_host::Fault;
use epl_values::{Bytes, Memory};
use record_book::{ContextRecord, Line, Record};
use std::alloc::Global;
use typed_program::Program;

fn push_escaped(out: &mut Bytes, byte: u8) -> Result<(), Memory>
    ensures { OnOk result (out.new ≡ out.old ++ escaped byte) }
{
    match byte {
        b'\n' => out.append(b"\\n"),
        b'\\' => out.append(b"\\\\"),
        _ => out.push(byte),
    }
}

fn push_text(out: &mut Bytes, text: &[u8]) -> Result<(), Memory>
    ensures { OnOk result (out.new ≡ out.old ++ flat_map escaped text.now) }
{
    'bytes: for byte in text {
        push_escaped(out, *byte)?;
    }
    Ok(())
}

fn name_of(slot: usize) -> &'static [u8]
    ensures { result.now ≡ name_of slot }
{
    if slot == 0 { b"main" } else { b"" }
}

fn level_name(level: u8) -> &'static [u8]
    ensures { result.now ≡ level_name level }
{
    match level {
        0 => b"CRIT",
        1 => b"FATAL",
        2 => b"ERROR",
        3 => b"WARN",
        4 => b"INFO",
        5 => b"DEBUG",
        _ => b"TRACE",
    }
}

fn fault_text(fault: Fault) -> &'static [u8]
    ensures { result.now ≡ fault_text fault }
{
    match fault {
        Fault::Overflow => b"integer overflow",
        Fault::DivisionByZero => b"division by zero",
        Fault::IndexOutOfRange => b"index out of range",
        Fault::MissingKey => b"missing key",
        Fault::CallDepth => b"call depth exceeded",
        Fault::NoContext => b"no context",
        Fault::NotMain => b"context outside main",
        Fault::TooManyContexts => b"too many contexts",
        Fault::TextTooLong => b"text too long",
    }
}

fn monitor_name(program: &Program, monitor: u16) -> &[u8]
    ensures { result.now ≡ monitor_name (slice_get program.now.monitors monitor) }
{
    match program.monitors.as_slice().get(monitor as usize) {
        None => b"",
        Some(found) => found.name.as_str().as_bytes(),
    }
}

fn push_head(alloc: Global, out: &mut Bytes, slot: usize) -> Result<(), Memory>
    ensures { OnOk result (out.new ≡ out.old ++ head_of slot) }
{
    let number = slot.to_string(alloc)?;
    out.append(number.as_bytes())?;
    out.push(b' ')?;
    push_text(out, name_of(slot))
}

fn push_told(out: &mut Bytes, text: &[u8]) -> Result<(), Memory>
    ensures { OnOk result (out.new ≡ out.old ++ told_text text.now) }
{
    out.append(b": ")?;
    push_text(out, text)?;
    out.push(b'\n')
}

fn push_line(
    alloc: Global,
    out: &mut Bytes,
    program: &Program,
    slot: usize,
    line: &Line,
) -> Result<(), Memory>
    ensures { OnOk result (out.new ≡ out.old ++ line_text program.now slot line.now) }
{
    push_head(alloc, out, slot)?;
    match line {
        Line::Print(text) => push_told(out, text.as_str().as_bytes()),
        Line::Log(level, text) => {
            out.push(b' ')?;
            out.append(level_name(*level))?;
            push_told(out, text.as_str().as_bytes())
        }
        Line::Fault(monitor, fault) => {
            out.append(b" FAULT: ")?;
            push_text(out, monitor_name(program, *monitor))?;
            push_told(out, fault_text(*fault))
        }
    }
}

fn push_lines(
    alloc: Global,
    out: &mut Bytes,
    program: &Program,
    slot: usize,
    lines: &[Line],
) -> Result<(), Memory>
    ensures { OnOk result (out.new ≡ out.old ++ flat_map (line_text program.now slot) lines.now) }
{
    'lines: for line in lines {
        push_line(alloc, out, program, slot, line)?;
    }
    Ok(())
}

fn push_spent(alloc: Global, out: &mut Bytes, slot: usize, spent: bool) -> Result<(), Memory>
    ensures { OnOk result (out.new ≡ out.old ++ spent_text slot spent) }
{
    if spent {
        push_head(alloc, out, slot)?;
        out.append(b" SPENT")?;
        out.push(b'\n')?;
    }
    Ok(())
}

fn push_context(
    alloc: Global,
    out: &mut Bytes,
    program: &Program,
    slot: usize,
    context: &ContextRecord,
) -> Result<(), Memory>
    ensures { OnOk result (out.new ≡ out.old ++ context_text program.now slot context.now) }
{
    push_lines(alloc, out, program, slot, context.lines.as_slice())?;
    push_spent(alloc, out, slot, context.spent)
}

/// The report of a record: the lines of each context, slot after slot, each ended by a newline. A line begins with the
/// number of the slot, a blank and the context's name. Behind it stands `: TEXT` for a `print`, ` LEVEL: TEXT` for a `log`,
/// ` FAULT: MONITOR: TEXT` for a fault, and ` SPENT` last where the context is spent. In a name or a text a newline is
/// written as `\n`, and a backslash twice.
pub fn report(alloc: Global, kept: &Record, program: &Program) -> Result<Bytes, Memory>
    ensures { IfOk result (λ bytes. bytes ≡ report_of program.now kept.now) }
{
    let mut out = Bytes::new(alloc);
    let contexts = kept.contexts.as_slice();
    'slots: for slot in 0..contexts.len() {
        push_context(alloc, &mut out, program, slot, &contexts[slot])?;
    }
    Ok(out)
}
