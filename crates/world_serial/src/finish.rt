ghost use Rattle.std.specs.Prelude.{◌≡◌, ◌<◌, ◌≤◌, ◌+◌, ◌-◌, ◌^◌, ◌++◌, [], length, drop, IfOk, OnOk};
ghost use Rattle.actor_theory.specs.Language.{by};
ghost use Rattle.actor_theory.specs.Order.{ordered};
ghost use Rattle.typed_program.specs.Typed.{Typed};
ghost use Rattle.record_book.specs.Fits.{ItemsFit};
ghost use Rattle.naive_meaning.specs.Faithful.{FaithfulRecord};
ghost use Rattle.naive_meaning.specs.Records.{IsScheduled};
ghost use Rattle.world_serial.specs.Queued.{but, first_queue, records_of};
ghost use Rattle.world_serial.specs.Serial.{record_of_world};

use crate::World;
use crate::rounds::run_rounds;
use crate::start::boot;
use context_core::Cell;
use epl_values::{List, Memory};
use queues::Queue;
use record_book::{ContextRecords, Entries, Entry, Items, Record, Settings};
use std::alloc::Global;
use typed_program::Program;

/// Moves a sender's entries behind those in a list, and gives the queue of the others.
fn take_sender(
    alloc: Global,
    sender: u8,
    queue: Queue<Entry>,
    left: &mut Entries,
) -> Result<Queue<Entry>, Memory>
    ensures moved { OnOk result (left.new ≡ left.old ++ by sender queue) }
    ensures others { IfOk result (λ others. others ≡ but sender queue) }
{
    let mut waiting = queue;
    let mut others = Queue::new(alloc);
    'entries: while let Some(entry) = waiting.pop_first() {
        if entry.sender == sender {
            left.push(entry)?;
        } else {
            others.push(entry)?;
        }
    }
    Ok(others)
}

/// What waits, in ascending order of senders, those of so many contexts and of the reader.
fn by_sender(alloc: Global, contexts: u8, queue: Queue<Entry>) -> Result<Entries, Memory>
    requires { contexts < 255 }
    ensures { IfOk result (λ left. left ≡ ordered (contexts + 1) queue) }
{
    let mut left = Entries::new(alloc);
    let mut waiting = queue;
    'senders: for sender in 0..contexts + 1 {
        waiting = take_sender(alloc, sender, waiting, &mut left)?;
    }
    Ok(left)
}

/// The record of each cell, with what is left for it. It takes the queues of these cells.
fn records(
    alloc: Global,
    contexts: u8,
    cells: Queue<Cell>,
    queued: &mut Queue<Queue<Entry>>,
) -> Result<ContextRecords, Memory>
    requires few { contexts < 255 }
    requires queues { length cells ≤ length queued.old }
    ensures records { IfOk result (λ records. records ≡ records_of contexts cells queued.old) }
    ensures rest { OnOk result (queued.new ≡ drop (length cells) queued.old) }
{
    let mut records = ContextRecords::new(alloc);
    let mut cells = cells;
    'cells: while let Some(cell) = cells.pop_first() {
        let Some(queue) = queued.pop_first() else {
            return Ok(records);
        };
        let left = by_sender(alloc, contexts, queue)?;
        records.push(cell.into_record(left))?;
    }
    Ok(records)
}

fn first_queue(alloc: Global, queued: Queue<Queue<Entry>>) -> Queue<Entry>
    ensures { result ≡ first_queue queued }
{
    let mut queued = queued;
    match queued.pop_first() {
        Some(queue) => queue,
        None => Queue::new(alloc),
    }
}

fn into_record(alloc: Global, settings: Settings, world: World) -> Result<Record, Memory>
    requires few { settings.contexts < 255 }
    requires cells { length world.cells.items ≡ settings.contexts }
    requires queues { length world.queued.items ≡ settings.contexts + 1 }
    ensures { IfOk result (λ r. r ≡ record_of_world settings world) }
{
    let World {
        cells,
        reader,
        queued,
    } = world;
    let cells = Queue::from_list(List::from_vec(cells));
    let mut queued = Queue::from_list(List::from_vec(queued));
    let contexts = records(alloc, settings.contexts, cells, &mut queued)?;
    let left = by_sender(alloc, settings.contexts, first_queue(alloc, queued))?;
    Ok(Record {
        settings,
        contexts,
        reader: reader.into_record(left),
    })
}

/// Runs a program over these items, and gives the record that boot and rounds until one handles nothing make. It is
/// faithful: each context's lines are those of naive evaluation over its log. The program is well typed, the items are
/// events of its types, settings are in range, and there are at most as many monitors as have numbers.
pub fn run(
    alloc: Global,
    program: &Program,
    items: Items,
    settings: Settings,
) -> Result<Record, Memory>
    requires typed { Typed program.now }
    requires items { ItemsFit program.now items }
    requires settings { (0 < settings.contexts) × (settings.contexts < 255) }
    requires fuel { settings.fuel < 2 ^ 64 - 1 }
    requires monitors { length program.now.monitors ≤ 65535 }
    ensures scheduled { IfOk result (λ r. IsScheduled program.now items settings [] r) }
    ensures faithful { IfOk result (λ r. FaithfulRecord program.now items settings r) }
{
    let mut world = boot(alloc, program, items, settings)?;
    run_rounds(&mut world, program, settings, true)?;
    let record = into_record(alloc, settings, world)?;
    Ok(record)
}
