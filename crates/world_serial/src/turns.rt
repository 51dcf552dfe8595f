ghost use Rattle.std.specs.Prelude.{◌≡◌, ℕ, ◌<◌, ◌+◌, Bool, false, length, IfOk, OnOk};
ghost use Rattle.actor_theory.specs.Language.{number_after};
ghost use Rattle.actor_theory.specs.Machine.{cell_after, delivered, empty_queues};
ghost use Rattle.typed_program.specs.declared.program.Program.{Program as TheProgram};
ghost use Rattle.typed_program.specs.Typed.{Typed};
ghost use Rattle.record_book.specs.Fits.{CargoFits};
ghost use Rattle.record_book.specs.declared.record.Settings.{Settings as TheSettings};
ghost use Rattle.naive_meaning.specs.Actors.{slots_of};
ghost use Rattle.context_core.specs.Cells.{Rests};
ghost use Rattle.source_actor.specs.Steps.{has_first};
ghost use Rattle.world_serial.specs.Fitting.{IsFitting};
ghost use Rattle.world_serial.specs.Serial.{IsStanding, TakesFirst, TurnsOn};

use crate::World;
use context_core::Cell;
use entry_queues::{Queued, pop_at};
use epl_values::Memory;
use record_book::{Entry, Settings};
use source_actor::Reader;
use typed_program::Program;

/// A cell handles an entry, and hands over what it sends.
fn cell_turn(
    cell: &mut Cell,
    program: &Program,
    entry: Entry,
    queued: &mut Queued,
) -> Result<(), Memory>
    requires live { cell.old.cell.state.spent ≡ false }
    requires typed { Typed program.now }
    requires rests { Rests program.now cell.old }
    requires cargo { CargoFits program.now entry.cargo }
    requires outboxes { cell.old.outboxes ≡ empty_queues (length queued.old.items) }
    ensures after { OnOk result ((settings : TheSettings) → cell.new.cell ≡ cell_after (slots_of program.now settings) cell.old.cell entry) }
    ensures queued { OnOk result ((settings : TheSettings) → queued.new.items ≡ delivered cell.old.cell.state.slot (number_after cell.old.cell.number entry) ((slots_of program.now settings).sent cell.old.cell.state (number_after cell.old.cell.number entry) entry) queued.old.items) }
    ensures outboxes { OnOk result (cell.new.outboxes ≡ empty_queues (length queued.old.items)) }
    ensures slot { OnOk result (cell.new.cell.state.slot ≡ cell.old.cell.state.slot) }
    ensures rests { OnOk result (Rests program.now cell.new) }
{
    cell.handle(program, entry)?;
    cell.hand_over(queued)?;
    Ok(())
}

/// The reader takes its next item, and hands over what it sends. Tells whether there was one.
fn item_turn(reader: &mut Reader, queued: &mut Queued) -> Result<bool, Memory>
    requires some { 0 < reader.old.contexts }
    requires count { length queued.old.items ≡ reader.old.contexts + 1 }
    requires outboxes { reader.old.outboxes ≡ empty_queues (length queued.old.items) }
    ensures more { IfOk result (λ more. more ≡ has_first reader.old.cell.rest) }
    ensures takes { OnOk result ((p : TheProgram) → TakesFirst p reader.old queued.old.items reader.old.cell.rest reader.new queued.new.items) }
{
    let more = reader.next_item()?;
    reader.hand_over(queued)?;
    Ok(more)
}

/// The turn of a slot: it handles its oldest entry, if it has one and isn't spent. Tells whether it has.
pub fn slot_turn(
    world: &mut World,
    program: &Program,
    settings: Settings,
    slot: u8,
) -> Result<bool, Memory>
    requires typed { Typed program.now }
    requires slot { slot < settings.contexts }
    requires standing { IsStanding program.now settings world.old }
    requires fitting { IsFitting program.now world.old }
    ensures turn { IfOk result (λ found. (takes : Bool) → TurnsOn program.now settings takes slot world.old world.new found) }
    ensures standing { OnOk result (IsStanding program.now settings world.new) }
    ensures fits { OnOk result (IsFitting program.now world.new) }
    ensures waits { OnOk result (world.new.reader ≡ world.old.reader) }
{
    let place = slot as usize;
    if world.cells[place].spent() {
        return Ok(false);
    }
    let Some(entry) = pop_at(&mut world.queued, slot) else {
        return Ok(false);
    };
    cell_turn(&mut world.cells[place], program, entry, &mut world.queued)?;
    Ok(true)
}

/// The turn of the reader: it handles its oldest entry, or else takes its next item, if it may. Tells whether it has.
pub fn reader_turn(
    world: &mut World,
    program: &Program,
    settings: Settings,
    takes: bool,
) -> Result<bool, Memory>
    requires some { 0 < settings.contexts }
    requires standing { IsStanding program.now settings world.old }
    requires fitting { IsFitting program.now world.old }
    ensures turn { IfOk result (λ found. TurnsOn program.now settings takes settings.contexts world.old world.new found) }
    ensures standing { OnOk result (IsStanding program.now settings world.new) }
    ensures fits { OnOk result (IsFitting program.now world.new) }
    ensures waits { OnOk result (takes ≡ false → world.new.reader.cell.rest ≡ world.old.reader.cell.rest) }
{
    if let Some(entry) = pop_at(&mut world.queued, settings.contexts) {
        world.reader.handle(entry)?;
        return Ok(true);
    }
    if !takes {
        return Ok(false);
    }
    item_turn(&mut world.reader, &mut world.queued)
}
