ghost use Rattle.std.specs.Prelude.{◌≡◌, ◌<◌, ◌≤◌, ◌-◌, ◌^◌, length, All, IfOk};
ghost use Rattle.record_book.specs.Fits.{ItemsFit};
ghost use Rattle.typed_program.specs.Typed.{Typed};
ghost use Rattle.typed_program.specs.declared.program.Program.{Program as TheProgram};
ghost use Rattle.context_core.specs.Cells.{Rests};
ghost use Rattle.world_serial.specs.Serial.{IsBooted, IsFresh, fresh_parts};

use crate::World;
use crate::rounds::run_rounds;
use context_core::Cell;
use entry_queues::empty_queues;
use epl_values::Memory;
use record_book::{Items, Settings};
use source_actor::Reader;
use std::alloc::Global;
use typed_program::Program;

fn fresh_cells(alloc: Global, settings: Settings) -> Result<Vec<Cell>, Memory>
    requires few { settings.contexts < 255 }
    requires fuel { settings.fuel < 2 ^ 64 - 1 }
    ensures fresh { IfOk result (λ cells. cells.items ≡ fresh_parts settings settings.contexts) }
    ensures rests { IfOk result (λ cells. (p : TheProgram) → All (Rests p) cells.items) }
{
    let mut cells = Vec::new(alloc);
    'slots: for slot in 0..settings.contexts {
        cells.push(Cell::new(alloc, slot, settings)?)?;
    }
    Ok(cells)
}

/// The parts before anything is handled, with the loads queued and no items.
fn begin(alloc: Global, program: &Program, settings: Settings) -> Result<World, Memory>
    requires some { (0 < settings.contexts) × (settings.contexts < 255) }
    requires fuel { settings.fuel < 2 ^ 64 - 1 }
    requires monitors { length program.now.monitors ≤ 65535 }
    ensures { IfOk result (λ w. IsFresh program.now settings w) }
{
    let cells = fresh_cells(alloc, settings)?;
    let mut queued = empty_queues(alloc, settings.contexts + 1)?;
    let mut reader = Reader::new(alloc, program, Items::new(alloc), settings)?;
    reader.hand_over(&mut queued)?;
    Ok(World {
        cells,
        reader,
        queued,
    })
}

/// Boot: the parts after the loads and all that they bring about are handled, with these items still to come.
pub fn boot(
    alloc: Global,
    program: &Program,
    items: Items,
    settings: Settings,
) -> Result<World, Memory>
    requires typed { Typed program.now }
    requires items { ItemsFit program.now items }
    requires some { (0 < settings.contexts) × (settings.contexts < 255) }
    requires fuel { settings.fuel < 2 ^ 64 - 1 }
    requires monitors { length program.now.monitors ≤ 65535 }
    ensures { IfOk result (λ w. IsBooted program.now settings items w) }
{
    let mut world = begin(alloc, program, settings)?;
    run_rounds(&mut world, program, settings, false)?;
    world.reader.give(items);
    Ok(world)
}
