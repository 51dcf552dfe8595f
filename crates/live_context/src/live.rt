ghost use Rattle.std.specs.Prelude.{◌≡◌, ◌+◌, ◌<◌, ◌≤◌, ◌==◌, [], length, nat_le, IfOk, OnOk};
ghost use Rattle.std.specs.Option.{option_copied, option_map};
ghost use Rattle.typed_program.specs.Typed.{Typed};
ghost use Rattle.record_book.specs.Fits.{IsTime};
ghost use Rattle.term_shapes.specs.Kept.{HeardFits};
ghost use Rattle.context_meaning.specs.Contexts.{fresh, spend, with_fuel, with_clock, paid, instance_of, has_instances, with_instance, without_instance, with_globals, listener_of, births_in, is_busy, without_listeners, without_birth, with_line, in_row, row_in_front, with_front};
ghost use Rattle.context_meaning.specs.Ends.{listening};
ghost use Rattle.context_meaning.specs.Fits.{ContextFits};
ghost use Rattle.live_context.specs.Lent.{lent, listed, first_of, rest_of};
ghost use Rattle.live_context.specs.Steps.{StepsBorn};

use crate::front::{put_mark, put_row};
use crate::instances::{
    LiveInstance, count_of, lend_from, monitor_in, one_less, one_more, put_into, set_count,
    take_out,
};
use crate::lent::Lent;
use crate::listener::{LiveListener, born_with};
use crate::listeners::{births_of, born, busy, step_born, without_born, without_its};
use context_meaning::{Instance, Waiting, Waitings};
use epl_values::{List, Values};
use event_terms::{State, StepOut};
use record_book::{Line, Lines};
use std::alloc::{AllocError, Global};
use std::marker::Model;
use std::mem;
use term_meaning::Stimulus;
use typed_program::Program;

/// A context that runs. What waits in front stands with the first at the end. It is counted how many
/// listeners each instance has.
#[derive(Drop)]
pub struct LiveContext {
    alloc: Global,
    slot: u8,
    slots: u8,
    clock: i128,
    fuel: u64,
    births: u64,
    begun: u64,
    instances: Vec<LiveInstance>,
    listeners: Vec<LiveListener>,
    noted: Vec<u64>,
    row: Waitings,
    waiting: Waitings,
    lines: Lines,
    spent: bool,
}

impl Model for LiveContext {
    ghost use Rattle.std.specs.Prelude.{reverse};
    ghost use Rattle.context_meaning.specs.Contexts.{Context};
    ghost use Rattle.live_context.specs.Counts.{instances_in};
    ghost use Rattle.epl_values.specs.contracts.value.Value as value;
    ghost use Rattle.term_meaning.specs.contracts.progress.Progress as course;
    ghost use Rattle.std.specs.Coded.{codes};

    ghost Value = { Context };

    ghost coded = { Prim.hlevel (codes, value.the_row.coded, course.the_row.coded) };

    ghost view = { λ c. record { slot = c.slot; slots = c.slots; clock = c.clock; fuel = c.fuel; births = c.births; begun = c.begun; instances = instances_in c.instances.items; listeners = c.listeners.items; row = c.row; front = reverse c.waiting; lines = c.lines; spent = c.spent } };

    ghost use Rattle.live_context.specs.Counts.{counts_in};
    ghost use Rattle.live_context.specs.Order.{InOrder};

    ghost invariant = { λ c. InOrder c.births c.begun c.listeners.items (instances_in c.instances.items) (counts_in c.instances.items) };
}

impl LiveContext {
    /// The context of a slot among so many, with this fuel, that has handled nothing.
    pub fn new(alloc: Global, slot: u8, slots: u8, fuel: u64) -> LiveContext
        ensures { result ≡ fresh slot slots fuel }
    {
        LiveContext {
            alloc,
            slot,
            slots,
            clock: 0,
            fuel,
            births: 0,
            begun: 0,
            instances: Vec::new(alloc),
            listeners: Vec::new(alloc),
            noted: Vec::new(alloc),
            row: List::new(alloc),
            waiting: List::new(alloc),
            lines: List::new(alloc),
            spent: false,
        }
    }

    pub fn slot(&self) -> u8
        ensures { result ≡ self.now.slot }
    {
        self.slot
    }

    pub fn slots(&self) -> u8
        ensures { result ≡ self.now.slots }
    {
        self.slots
    }

    pub fn fuel(&self) -> u64
        ensures { result ≡ self.now.fuel }
    {
        self.fuel
    }

    /// How many listeners were born.
    pub fn births(&self) -> u64
        ensures { result ≡ self.now.births }
    {
        self.births
    }

    /// How many instances were begun.
    pub fn begun(&self) -> u64
        ensures { result ≡ self.now.begun }
    {
        self.begun
    }

    pub fn is_spent(&self) -> bool
        ensures { result ≡ self.now.spent }
    {
        self.spent
    }

    // ---- the clock

    /// The time, in tenths of a second.
    pub fn clock(&self) -> i128
        ensures { result ≡ self.now.clock }
    {
        self.clock
    }

    pub fn set_clock(&mut self, now: i128)
        ensures { self.new ≡ with_clock now self.old }
    {
        self.clock = now;
    }

    // ---- fuel

    pub fn spend(&mut self)
        ensures { self.new ≡ spend self.old }
    {
        self.spent = true;
    }

    /// Takes fuel; where there is less, the context is spent.
    pub fn pay(&mut self, amount: u64) -> bool
        ensures after { self.new ≡ paid amount self.old }
        ensures answer { result ≡ nat_le amount self.old.fuel }
    {
        if amount <= self.fuel {
            self.fuel -= amount;
            true
        } else {
            self.spent = true;
            false
        }
    }

    /// The fuel that a run has left.
    pub fn set_fuel(&mut self, fuel: u64)
        ensures { self.new ≡ with_fuel fuel self.old }
    {
        self.fuel = fuel;
    }

    // ---- instances

    pub fn has_instances(&self) -> bool
        ensures { result ≡ has_instances self.now }
    {
        self.instances.len() != 0
    }

    /// An instance begins behind the others; its number.
    pub fn begin(&mut self, monitor: u16, globals: Values) -> Result<u64, AllocError>
        ensures after { OnOk result (self.new ≡ with_instance monitor globals self.old) }
        ensures number { IfOk result (λ n. n ≡ self.old.begun + 1) }
    {
        let Some(number) = self.begun.checked_add(1) else {
            return Err(AllocError);
        };
        self.instances.push(LiveInstance {
            instance: Instance {
                number,
                monitor,
                globals,
            },
            listeners: 0,
        })?;
        self.begun = number;
        Ok(number)
    }

    /// Takes the globals of the instance with a number out for a run, and leaves none in it; `None` exactly where it isn't there.
    pub fn lend(&mut self, number: u64) -> Option<Lent>
        ensures answer { result ≡ lent (instance_of number self.old) }
        ensures after { self.new ≡ with_globals number [] self.old }
    {
        let emptied = List::new(self.alloc);
        lend_from(&mut self.instances, number, emptied)
    }

    /// Puts globals into the instance with a number, where it is there.
    pub fn put_back(&mut self, number: u64, globals: Values)
        ensures { self.new ≡ with_globals number globals self.old }
    {
        put_into(&mut self.instances, number, globals);
    }

    /// The instance with a number is gone.
    pub fn remove(&mut self, number: u64)
        ensures { self.new ≡ without_instance number self.old }
    {
        take_out(number, &mut self.instances);
    }

    /// The monitor of the instance with a number; `None` exactly where it isn't there.
    pub fn monitor_of(&self, number: u64) -> Option<u16>
        ensures { result ≡ option_map (λ i. i.monitor) (instance_of number self.now) }
    {
        monitor_in(self.instances.as_slice(), number)
    }

    // ---- listeners

    /// A listener of an instance that was begun is born, the last in order of birth: its event expression begins, over the operands
    /// as they were at the `on`.
    pub fn listen(
        &mut self,
        program: &Program,
        instance: u64,
        site: u16,
        operands: Values,
        captured: Values,
    ) -> Result<(), AllocError>
        requires typed { Typed program.now }
        requires begun { instance ≤ self.old.begun }
        requires there { site < length program.now.sites }
        requires time { IsTime self.old.clock }
        ensures { OnOk result (self.new ≡ listening program.now instance site operands captured self.old) }
    {
        let Some(birth) = self.births.checked_add(1) else {
            return Err(AllocError);
        };
        let state = State::start(self.alloc, program, site, operands, self.clock)?;
        self.listeners
            .push(born_with(birth, instance, captured, state))?;
        self.births = birth;
        one_more(instance, &mut self.instances);
        Ok(())
    }

    /// The event expression of the live listener of a birth is stepped, at the time of the clock; `None` exactly where there is no
    /// such listener. After want of memory nothing is said of the expression.
    pub fn step(
        &mut self,
        program: &Program,
        birth: u64,
        stimulus: &Stimulus,
    ) -> Result<Option<StepOut>, AllocError>
        requires typed { Typed program.now }
        requires fits { ContextFits program.now self.old }
        requires heard { HeardFits program.now.types stimulus.now }
        ensures { IfOk result (λ told. StepsBorn program.now stimulus.now birth self.old told self.new) }
    {
        step_born(
            self.alloc,
            program,
            &mut self.listeners,
            birth,
            stimulus,
            self.clock,
        )
    }

    /// The listener of a birth ends, where it lives.
    pub fn quit(&mut self, birth: u64)
        ensures { self.new ≡ without_birth birth self.old }
    {
        if let Some(instance) = without_born(birth, &mut self.listeners) {
            one_less(instance, &mut self.instances);
        }
    }

    /// The listeners of an instance end.
    pub fn quit_all(&mut self, instance: u64)
        ensures { self.new ≡ without_listeners instance self.old }
    {
        if self.is_busy(instance) {
            without_its(instance, &mut self.listeners);
            set_count(instance, &mut self.instances, 0);
        }
    }

    /// Whether an instance has a live listener.
    pub fn is_busy(&self, instance: u64) -> bool
        ensures { result ≡ is_busy instance self.now }
    {
        match count_of(self.instances.as_slice(), instance) {
            None => busy(instance, self.listeners.as_slice()),
            Some(count) => count != 0,
        }
    }

    /// The births of all live listeners, ascending. Who gives the list back with `births_done` spares the next one its memory.
    pub fn births_noted(&mut self) -> Result<Vec<u64>, AllocError>
        ensures births { IfOk result (λ births. births.items ≡ births_in self.old) }
        ensures same { self.new ≡ self.old }
    {
        let mut births = mem::replace(&mut self.noted, Vec::new(self.alloc));
        births_of(&mut births, self.listeners.as_slice())?;
        Ok(births)
    }

    /// Takes a list of births back, to use its memory again.
    pub fn births_done(&mut self, births: Vec<u64>)
        ensures { self.new ≡ self.old }
    {
        self.noted = births;
    }

    /// The live listener of a birth.
    pub fn listener(&self, birth: u64) -> Option<&LiveListener>
        ensures { option_copied result ≡ listener_of birth self.now }
    {
        born(birth, self.listeners.as_slice())
    }

    // ---- lines, the row and the front

    pub fn print(&mut self, line: Line) -> Result<(), AllocError>
        ensures { OnOk result (self.new ≡ with_line line self.old) }
    {
        self.lines.push(line)
    }

    /// One thing more in the row of what is handled at the moment.
    pub fn put_in_row(&mut self, thing: Waiting) -> Result<(), AllocError>
        ensures { OnOk result (self.new ≡ in_row thing self.old) }
    {
        self.row.push(thing)
    }

    /// Whether nothing stands in the row.
    pub fn is_row_empty(&self) -> bool
        ensures { result ≡ (length self.now.row == 0) }
    {
        self.row.len() == 0
    }

    /// The row and then a mark, where there is one, stand before what waits.
    pub fn put_in_front(&mut self, mark: Option<Waiting>) -> Result<(), AllocError>
        ensures { OnOk result (self.new ≡ row_in_front (listed mark) self.old) }
    {
        put_mark(&mut self.waiting, mark)?;
        put_row(&mut self.waiting, &mut self.row)
    }

    /// Takes the first of what waits.
    pub fn take_first(&mut self) -> Option<Waiting>
        ensures answer { result ≡ first_of self.old.front }
        ensures after { self.new ≡ with_front (rest_of self.old.front) self.old }
    {
        self.waiting.pop()
    }

    pub fn lines(&self) -> &Lines
        ensures { result.now ≡ self.now.lines }
    {
        &self.lines
    }

    pub fn into_lines(self) -> Lines
        ensures { result ≡ self.lines }
    {
        let LiveContext { lines, .. } = self;
        lines
    }
}
