ghost use Rattle.std.specs.Prelude.{◌≡◌, ◌<◌, ◌∷◌, ◌++◌, [], pos, Some, length, IfErr, IfOk, OnOk};
ghost use Rattle.record_book.specs.Fits.{ItemsFit};
ghost use Rattle.evt_text.specs.Forms.{AreEventTypes};
ghost use Rattle.evt_reader.specs.Files.{GivesItems, time_after};
ghost use Rattle.evt_reader.specs.Steps.{TakesLine};
ghost use Rattle.evt_reader.specs.declared.fault.LineFault.TheVariants.{Memory};

use crate::LineFault;
use crate::lines::{Lines, without_mark};
use crate::meaning::meaning;
use epl_values::{EventShapes, List};
use evt_text::TextFault;
use record_book::{Item, Items};
use std::alloc::Global;
use typed_program::Program;

/// What the lines so far have given: their items, and the last time in tenths of a second, 0 at first.
#[derive(Drop)]
struct Given {
    items: Items,
    last: i128,
}

fn nothing_given(alloc: Global) -> Given
    ensures items { result.items ≡ [] }
    ensures last { result.last ≡ pos 0 }
{
    Given {
        items: List::new(alloc),
        last: 0,
    }
}

fn time_after(last: &i128, item: &Item) -> i128
    ensures { result ≡ time_after last.now (Some item.now) }
{
    match item {
        Item::Event(..) => *last,
        Item::Time(time) => *time,
    }
}

/// Puts an item behind the others; its time, if it has one, is the last.
fn put(given: &mut Given, item: Item) -> Result<(), LineFault>
    ensures items { OnOk result (given.new.items ≡ given.old.items ++ item ∷ []) }
    ensures last { OnOk result (given.new.last ≡ time_after given.old.last (Some item)) }
    ensures memory { IfErr result (λ e. e ≡ Memory) }
{
    let last = time_after(&given.last, &item);
    given.items.push(item)?;
    given.last = last;
    Ok(())
}

fn take_line(
    alloc: Global,
    types: &EventShapes,
    line: &[u8],
    number: u32,
    given: &mut Given,
) -> Result<(), LineFault>
    requires { AreEventTypes types.now }
    ensures { TakesLine types.now line.now number given.old.last given.new.last given.old.items given.new.items result }
{
    match meaning(alloc, types, &given.last, line) {
        Ok(None) => Ok(()),
        Ok(Some(item)) => {
            put(given, item)?;
            Ok(())
        }
        Err(TextFault::NoValue) => Err(LineFault::Line(number)),
        Err(TextFault::Memory) => Err(LineFault::Memory),
    }
}

/// The items of an event file over a program's event types, or the first line that is refused.
pub fn items(alloc: Global, program: &Program, bytes: &[u8]) -> Result<Items, LineFault>
    requires types { AreEventTypes program.now.types }
    requires size { length bytes.now < 4294967295 }
    ensures gives { GivesItems program.now.types bytes.now result }
    ensures fits { IfOk result (λ items. ItemsFit program.now items) }
{
    let mut lines = Lines {
        rest: without_mark(bytes),
    };
    let mut given = nothing_given(alloc);
    let mut number: u32 = 0;
    'lines: while let Some(line) = lines.next() {
        number += 1;
        take_line(alloc, &program.types, line, number, &mut given)?;
    }
    Ok(given.items)
}
