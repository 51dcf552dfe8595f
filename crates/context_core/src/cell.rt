ghost use Rattle.std.specs.Prelude.{◌≡◌, ℕ, ◌<◌, ◌≤◌, ◌-◌, ◌^◌, [], false, length, slice_set, IfOk, OnOk};
ghost use Rattle.std.specs.Option.{option_copied};
ghost use Rattle.actor_theory.specs.Machine.{queue_at};
ghost use Rattle.typed_program.specs.Typed.{Typed};
ghost use Rattle.typed_program.specs.declared.program.Program.{Program as TheProgram};
ghost use Rattle.record_book.specs.Fits.{CargoFits};
ghost use Rattle.record_book.specs.declared.record.Settings.{Settings as TheSettings};
ghost use Rattle.naive_meaning.specs.Actors.{slots_of};
ghost use Rattle.entry_queues.specs.Queued.{Gathers, first_of, rest_of};
ghost use Rattle.context_core.specs.Cells.{Rests, fresh_part, is_spent, part_after, record_of};

use context_steps::handle;
use entry_queues::{Queued, empty_queues, first_at, gather, pop_at};
use epl_values::{List, Memory};
use live_context::LiveContext;
use record_book::{ContextRecord, Entries, Entry, Handled, HandledList, Lines, Settings};
use std::alloc::Global;
use std::marker::Model;
use tree_walker::TreeWalker;
use typed_program::Program;

/// A running context: what it is, the number of its last handling, its log, and for each actor what it has sent there and not
/// handed over.
#[derive(Drop)]
pub struct Cell {
    alloc: Global,
    context: LiveContext,
    number: u64,
    log: HandledList,
    outboxes: Queued,
}

/// The cells of a run, by slot.
pub type Cells = List<Cell>;

impl Model for Cell {
    ghost use Rattle.context_core.specs.Cells.{CellPart};
    ghost use Rattle.epl_values.specs.contracts.value.Value as value;
    ghost use Rattle.term_meaning.specs.contracts.progress.Progress as course;
    ghost use Rattle.std.specs.Coded.{codes};

    ghost Value = { CellPart };

    ghost coded = { Prim.hlevel (codes, value.the_row.coded, course.the_row.coded) };

    ghost view = { λ c. record { cell = record { state = c.context; number = c.number; log = c.log }; outboxes = c.outboxes.items } };
}

/// How a handling left the context.
#[derive(Clone, Copy, Debug, PartialEq, Eq)]
pub enum Handling {
    /// It goes on.
    Quiet,
    /// It is spent, and handles nothing more.
    Spent,
}

impl Cell {
    /// The context of a slot, that has handled nothing and has all the fuel that is set.
    pub fn new(alloc: Global, slot: u8, settings: Settings) -> Result<Cell, Memory>
        requires few { settings.contexts < 255 }
        ensures fresh { IfOk result (λ c. c ≡ fresh_part slot settings) }
        ensures rests { IfOk result (λ c. (p : TheProgram) → settings.fuel < 2 ^ 64 - 1 → Rests p c) }
    {
        let outboxes = empty_queues(alloc, settings.contexts + 1)?;
        Ok(Cell {
            alloc,
            context: LiveContext::new(alloc, slot, settings.contexts, settings.fuel),
            number: 0,
            log: HandledList::new(alloc),
            outboxes,
        })
    }

    /// Handles an entry: its state, its number and its log are then those of naive evaluation with this entry behind
    /// the others, and what it sends is in its outboxes. After want of memory nothing is said of it.
    pub fn handle(&mut self, program: &Program, entry: Entry) -> Result<Handling, Memory>
        requires live { self.old.cell.state.spent ≡ false }
        requires typed { Typed program.now }
        requires rests { Rests program.now self.old }
        requires cargo { CargoFits program.now entry.cargo }
        ensures after { OnOk result ((settings : TheSettings) → self.new ≡ part_after (slots_of program.now settings) self.old entry) }
        ensures rests { OnOk result (Rests program.now self.new) }
        ensures fuel { OnOk result (self.new.cell.state.fuel ≤ self.old.cell.state.fuel) }
        ensures slot { OnOk result (self.new.cell.state.slot ≡ self.old.cell.state.slot) }
        ensures slots { OnOk result (self.new.cell.state.slots ≡ self.old.cell.state.slots) }
        ensures answer { IfOk result (λ answer. is_spent answer ≡ self.new.cell.state.spent) }
    {
        // A stamp is below 2^63 in every run, so there is a next number.
        let Some(number) = self.number.max(entry.stamp).checked_add(1) else {
            return Err(Memory);
        };
        let Entry {
            sender,
            stamp,
            cargo,
        } = entry;
        let cargo = handle(
            &TreeWalker,
            self.alloc,
            program,
            &mut self.context,
            number,
            cargo,
        )?;
        let entry = Entry {
            sender,
            stamp,
            cargo,
        };
        self.number = number;
        self.log.push(Handled { entry, number })?;
        if self.context.is_spent() {
            return Ok(Handling::Spent);
        }
        Ok(Handling::Quiet)
    }

    /// The oldest entry that it has sent to an actor and not handed over; `None` exactly where there is none.
    pub fn outbox_first(&self, target: u8) -> Option<&Entry>
        requires { target < length self.now.outboxes }
        ensures { option_copied result ≡ first_of (queue_at self.now.outboxes target) }
    {
        first_at(&self.outboxes, target)
    }

    /// Takes the oldest entry that it has sent to an actor and not handed over; `None` exactly where there is none.
    pub fn outbox_pop(&mut self, target: u8) -> Option<Entry>
        requires { target < length self.old.outboxes }
        ensures first { result ≡ first_of (queue_at self.old.outboxes target) }
        ensures rest { self.new ≡ record self.old { outboxes = slice_set self.old.outboxes target (rest_of (queue_at self.old.outboxes target)) } }
    {
        pop_at(&mut self.outboxes, target)
    }

    /// Hands all that it has sent over, behind what waits for each actor. After want of memory nothing is said of either.
    pub fn hand_over(&mut self, queued: &mut Queued) -> Result<(), Memory>
        requires { length self.old.outboxes ≡ length queued.old.items }
        ensures gathers { OnOk result (Gathers self.old.outboxes queued.old.items self.new.outboxes queued.new.items) }
        ensures stays { OnOk result (self.new.cell ≡ self.old.cell) }
    {
        gather(&mut self.outboxes, queued)
    }

    /// What it has printed.
    pub fn lines(&self) -> &Lines
        ensures { result.now ≡ self.now.cell.state.lines }
    {
        self.context.lines()
    }

    /// What it has handled.
    pub fn log_of(&self) -> &HandledList
        ensures { result.now ≡ self.now.cell.log }
    {
        &self.log
    }

    /// The number of its last handling, 0 before the first.
    pub fn number(&self) -> u64
        ensures { result ≡ self.now.cell.number }
    {
        self.number
    }

    /// Whether it is spent.
    pub fn spent(&self) -> bool
        ensures { result ≡ self.now.cell.state.spent }
    {
        self.context.is_spent()
    }

    /// Its record, with what was sent to it and not handled.
    pub fn into_record(self, left: Entries) -> ContextRecord
        ensures { result ≡ record_of self left }
    {
        let Cell { context, log, .. } = self;
        let spent = context.is_spent();
        ContextRecord {
            lines: context.into_lines(),
            handled: log,
            left,
            spent,
        }
    }
}
