ghost use Rattle.std.specs.Prelude.{◌≡◌, ◌<◌, ◌≤ℤ◌, ◌-◌, ◌^◌, pos, length, IfOk, Some, slice_get};
ghost use Rattle.typed_program.specs.Typed.{Typed};
ghost use Rattle.term_shapes.specs.Kept.{HeardFits};
ghost use Rattle.context_meaning.specs.Listeners.{Listener};
ghost use Rattle.live_context.specs.Steps.{IsSame, StepsOne};

use epl_values::Values;
use event_terms::{State, StepOut};
use std::alloc::{AllocError, Global};
use std::marker::Model;
use term_meaning::Stimulus;
use typed_program::Program;

/// A live listener: its birth, its instance, what its callback takes along, and the event expression of its site, under way.
#[derive(Drop)]
pub struct LiveListener {
    birth: u64,
    instance: u64,
    captured: Values,
    state: State,
}

impl Model for LiveListener {
    ghost use Rattle.context_meaning.specs.Listeners.{Listener};
    ghost use Rattle.epl_values.specs.contracts.value.Value as value;
    ghost use Rattle.term_meaning.specs.contracts.progress.Progress as course;
    ghost use Rattle.std.specs.Coded.{codes};

    ghost Value = { Listener };

    ghost coded = { Prim.hlevel (codes, value.the_row.coded, course.the_row.coded) };

    ghost view = { λ l. record { birth = l.birth; instance = l.instance; site = l.state.site; captured = l.captured; expression = l.state.expression } };
}

impl LiveListener {
    /// Its number among the listeners of its context, from 1.
    pub fn birth(&self) -> u64
        ensures { result ≡ self.now.birth }
    {
        self.birth
    }

    /// The number of its instance.
    pub fn instance(&self) -> u64
        ensures { result ≡ self.now.instance }
    {
        self.instance
    }

    /// The number of its site.
    pub fn site(&self) -> u16
        ensures { result ≡ self.now.site }
    {
        self.state.site()
    }

    /// The values of the names that its callback takes along.
    pub fn captured(&self) -> &Values
        ensures { result.now ≡ self.now.captured }
    {
        &self.captured
    }
}

/// A listener that is born with an event expression that has begun.
pub fn born_with(birth: u64, instance: u64, captured: Values, state: State) -> LiveListener
    ensures { result ≡ record { birth = birth; instance = instance; site = state.site; captured = captured; expression = state.expression } }
{
    LiveListener {
        birth,
        instance,
        captured,
        state,
    }
}

/// The most leaves that an event expression may begin.
const MOST_LEAVES: u64 = 4294967295;

/// A stimulus moves the event expression of a listener, at a time. After want of memory nothing is said of the expression.
pub fn step_one(
    alloc: Global,
    program: &Program,
    listener: &mut LiveListener,
    stimulus: &Stimulus,
    now: i128,
) -> Result<StepOut, AllocError>
    requires typed { Typed program.now }
    requires there { listener.old.site < length program.now.sites }
    requires heard { HeardFits program.now.types stimulus.now }
    requires from { pos 0 ≤ℤ now }
    requires to { now ≤ℤ pos (10 ^ 13 - 1) }
    ensures steps { IfOk result (λ told. StepsOne program.now stimulus.now now listener.old told listener.new) }
    ensures same { IsSame listener.old listener.new }
{
    if listener.state.begun() >= MOST_LEAVES {
        return Err(AllocError);
    }
    listener.state.step(alloc, program, stimulus, now)
}
