ghost use Rattle.std.specs.Prelude.{◌≡◌, ◌+◌, ◌<◌, ◌≤◌, ◌++◌, [], ◌∷◌, length, slice_set, IfOk, OnOk};
ghost use Rattle.std.specs.Option.{option_copied};
ghost use Rattle.actor_theory.specs.Joined.{slots_only};
ghost use Rattle.actor_theory.specs.Machine.{delivered, empty_queues, queue_at};
ghost use Rattle.naive_meaning.specs.Actors.{event_sends, item_sends, loads_below, times_below};
ghost use Rattle.typed_program.specs.declared.program.Program.{Program as TheProgram};
ghost use Rattle.entry_queues.specs.Queued.{Gathers, first_of, rest_of};
ghost use Rattle.source_actor.specs.Steps.{event_entry, fresh_part, has_first, is_named, time_entry, part_after_entry, part_after_first, record_of};

use entry_queues::{Queued, empty_queues, first_at, gather, pop_at};
use epl_values::{Memory, Text, Value, copy};
use queues::Queue;
use record_book::{
    Cargo, Entries, Entry, Item, Items, ReaderRecord, ReaderStep, ReaderSteps, Settings,
};
use std::alloc::Global;
use std::marker::Model;
use typed_program::Program;

/// The reader of an event file: the number of its last handling, its steps, the items still to come, and for each actor what it
/// has sent there and not handed over.
#[derive(Drop)]
pub struct Reader {
    alloc: Global,
    contexts: u8,
    number: u64,
    steps: ReaderSteps,
    rest: Queue<Item>,
    outboxes: Queued,
}

impl Model for Reader {
    ghost use Rattle.source_actor.specs.Steps.{ReaderPart};
    ghost use Rattle.epl_values.specs.contracts.value.Value as value;
    ghost use Rattle.std.specs.Coded.{codes};

    ghost Value = { ReaderPart };

    ghost coded = { Prim.hlevel (codes, value.the_row.coded) };

    ghost view = { λ r. record { contexts = r.contexts; cell = record { state = tt; number = r.number; steps = r.steps; rest = r.rest }; outboxes = r.outboxes.items } };
}

/// Puts an entry behind those for a context.
fn send_to(outboxes: &mut Queued, slot: u8, entry: Entry) -> Result<(), Memory>
    requires { slot < length outboxes.old.items }
    ensures { OnOk result (outboxes.new.items ≡ slice_set outboxes.old.items slot (queue_at outboxes.old.items slot ++ entry ∷ [])) }
{
    outboxes[usize::from(slot)].push(entry)?;
    Ok(())
}

/// The entry of an event, under a number, in the name of the reader of so many contexts.
fn event_entry(alloc: Global, contexts: u8, number: u64, event: &Value) -> Result<Entry, Memory>
    ensures { IfOk result (λ e. e ≡ event_entry contexts number event.now) }
{
    Ok(Entry {
        sender: contexts,
        stamp: number,
        cargo: Cargo::Event(copy(alloc, event)?),
    })
}

/// Whether a channel has a name.
fn is_named(channel: &str) -> bool
    ensures { result ≡ is_named channel.now }
{
    matches!(channel.as_bytes(), [_, ..])
}

/// Sends an event of a channel, under a number, in the name of the reader of so many contexts.
fn send_event(
    alloc: Global,
    contexts: u8,
    number: u64,
    channel: &Text,
    event: &Value,
    outboxes: &mut Queued,
) -> Result<(), Memory>
    requires some { 0 < contexts }
    requires count { length outboxes.old.items ≡ contexts + 1 }
    ensures { OnOk result (outboxes.new.items ≡ delivered contexts number (slots_only contexts (event_sends channel.now event.now)) outboxes.old.items) }
{
    if is_named(channel.as_str()) {
        return Ok(());
    }
    let entry = event_entry(alloc, contexts, number, event)?;
    send_to(outboxes, 0, entry)?;
    Ok(())
}

/// The entry of a time, under a number, in the name of the reader of so many contexts.
fn time_entry(contexts: u8, number: u64, time: &i128) -> Entry
    ensures { result ≡ time_entry contexts number time.now }
{
    Entry {
        sender: contexts,
        stamp: number,
        cargo: Cargo::Time(*time),
    }
}

/// Sends a time to each context, under a number, in the name of the reader of so many contexts.
fn send_time(contexts: u8, number: u64, time: &i128, outboxes: &mut Queued) -> Result<(), Memory>
    requires count { length outboxes.old.items ≡ contexts + 1 }
    ensures { OnOk result (outboxes.new.items ≡ delivered contexts number (slots_only contexts (times_below contexts time.now)) outboxes.old.items) }
{
    'slots: for slot in 0..contexts {
        let entry = time_entry(contexts, number, time);
        send_to(outboxes, slot, entry)?;
    }
    Ok(())
}

/// Sends what an item says, under a number, in the name of the reader of so many contexts.
fn send_item(
    alloc: Global,
    contexts: u8,
    number: u64,
    item: &Item,
    outboxes: &mut Queued,
) -> Result<(), Memory>
    requires some { 0 < contexts }
    requires count { length outboxes.old.items ≡ contexts + 1 }
    ensures { OnOk result (outboxes.new.items ≡ delivered contexts number (slots_only contexts (item_sends contexts item.now)) outboxes.old.items) }
{
    match item {
        Item::Event(channel, event) => {
            send_event(alloc, contexts, number, channel, event, outboxes)
        }
        Item::Time(time) => send_time(contexts, number, time, outboxes),
    }
}

/// Outboxes with a load for each of so many monitors, in order.
fn loads(alloc: Global, contexts: u8, monitors: u16) -> Result<Queued, Memory>
    requires some { (0 < contexts) × (contexts < 255) }
    ensures { IfOk result (λ o. o.items ≡ delivered contexts 0 (slots_only contexts (loads_below monitors)) (empty_queues (contexts + 1))) }
{
    let mut outboxes = empty_queues(alloc, contexts + 1)?;
    'monitors: for monitor in 0..monitors {
        let entry = Entry {
            sender: contexts,
            stamp: 0,
            cargo: Cargo::Load(monitor),
        };
        send_to(&mut outboxes, 0, entry)?;
    }
    Ok(outboxes)
}

impl Reader {
    /// A reader of these items that has handled nothing; it has sent a load for each monitor to the main context.
    pub fn new(
        alloc: Global,
        program: &Program,
        items: Items,
        settings: Settings,
    ) -> Result<Reader, Memory>
        requires some { (0 < settings.contexts) × (settings.contexts < 255) }
        requires monitors { length program.now.monitors ≤ 65535 }
        ensures { IfOk result (λ r. r ≡ fresh_part program.now settings.contexts items) }
    {
        let outboxes = loads(alloc, settings.contexts, program.monitors.len() as u16)?;
        Ok(Reader {
            alloc,
            contexts: settings.contexts,
            number: 0,
            steps: ReaderSteps::new(alloc),
            rest: Queue::from_list(items),
            outboxes,
        })
    }

    /// Gives it these items to take, in place of those that it has.
    pub fn give(&mut self, items: Items)
        ensures { self.new ≡ record self.old { cell = record self.old.cell { rest = items } } }
    {
        self.rest = Queue::from_list(items);
    }

    /// Handles an entry that was sent to it. After want of memory nothing is said of it.
    pub fn handle(&mut self, entry: Entry) -> Result<(), Memory>
        ensures { OnOk result ((p : TheProgram) → self.new ≡ part_after_entry p self.old entry) }
    {
        // A stamp is below 2^63 in every run, so there is a next number.
        let Some(number) = self.number.max(entry.stamp).checked_add(1) else {
            return Err(Memory);
        };
        self.number = number;
        self.steps.push(ReaderStep::Entry(entry, number))?;
        Ok(())
    }

    /// Takes the next item, and sends what it says; false exactly where no item is left. After want of memory nothing is said of
    /// it.
    pub fn next_item(&mut self) -> Result<bool, Memory>
        requires some { 0 < self.old.contexts }
        requires count { length self.old.outboxes ≡ self.old.contexts + 1 }
        ensures more { IfOk result (λ more. more ≡ has_first self.old.cell.rest) }
        ensures after { OnOk result ((p : TheProgram) → self.new ≡ part_after_first p self.old self.old.cell.rest) }
    {
        let Some(item) = self.rest.pop_first() else {
            return Ok(false);
        };
        let Some(number) = self.number.checked_add(1) else {
            return Err(Memory);
        };
        send_item(self.alloc, self.contexts, number, &item, &mut self.outboxes)?;
        self.number = number;
        self.steps.push(ReaderStep::Item(item, number))?;
        Ok(true)
    }

    /// The oldest entry that it has sent to an actor and not handed over; `None` exactly where there is none.
    pub fn outbox_first(&self, target: u8) -> Option<&Entry>
        requires { target < length self.now.outboxes }
        ensures { option_copied result ≡ first_of (queue_at self.now.outboxes target) }
    {
        first_at(&self.outboxes, target)
    }

    /// Takes the oldest entry that it has sent to an actor and not handed over; `None` exactly where there is none.
    pub fn outbox_pop(&mut self, target: u8) -> Option<Entry>
        requires { target < length self.old.outboxes }
        ensures first { result ≡ first_of (queue_at self.old.outboxes target) }
        ensures rest { self.new ≡ record self.old { outboxes = slice_set self.old.outboxes target (rest_of (queue_at self.old.outboxes target)) } }
    {
        pop_at(&mut self.outboxes, target)
    }

    /// Hands all that it has sent over, behind what waits for each actor. After want of memory nothing is said of either.
    pub fn hand_over(&mut self, queued: &mut Queued) -> Result<(), Memory>
        requires { length self.old.outboxes ≡ length queued.old.items }
        ensures gathers { OnOk result (Gathers self.old.outboxes queued.old.items self.new.outboxes queued.new.items) }
        ensures stays { OnOk result ((self.new.cell ≡ self.old.cell) × (self.new.contexts ≡ self.old.contexts)) }
    {
        gather(&mut self.outboxes, queued)
    }

    /// Its record, with what was sent to it and not handled.
    pub fn into_record(self, left: Entries) -> ReaderRecord
        ensures { result ≡ record_of self left }
    {
        let Reader { steps, .. } = self;
        ReaderRecord { steps, left }
    }
}
