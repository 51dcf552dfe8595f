ghost use Rattle.std.specs.Prelude.{◌≡◌, IfOk, OnOk};
ghost use Rattle.epl_values.specs.declared.value.Value.{Value, out-Value};
ghost use Rattle.typed_program.specs.Typed.{Typed};
ghost use Rattle.value_shapes.specs.Fits.{IsEvent};
ghost use Rattle.term_meaning.specs.declared.stimulus.Stimulus.TheVariants as stimulus;
ghost use Rattle.record_book.specs.Fits.{IsTime};
ghost use Rattle.context_meaning.specs.declared.context.Waiting.TheVariants as waiting;
ghost use Rattle.context_meaning.specs.Fits.{ContextFits, WaitingFits};
ghost use Rattle.context_meaning.specs.Handling.{event_turns, met, one_turn, thing_handled, timed};
ghost use Rattle.context_steps.specs.Steps.{InRange, Keeps, event_in};

use crate::around::Around;
use crate::callbacks::charge;
use crate::turns::{one_turn, turn};
use body_runs::BodyRunner;
use context_meaning::Waiting;
use epl_values::Value;
use live_context::LiveContext;
use std::alloc::AllocError;
use term_meaning::Stimulus;

/// The event of a stimulus; 0 for a time.
fn event_in(stimulus: Stimulus) -> Value
    ensures { result ≡ event_in stimulus }
{
    match stimulus {
        Stimulus::Event(value) => value,
        Stimulus::Unmatched(value) => value,
        Stimulus::Completed(value) => value,
        Stimulus::Time(_now) => Value::Integer(0),
    }
}

/// A turn with an event, where no ordinary template fitted it.
fn unmatched_turn<R: BodyRunner>(
    around: &Around<'_, R>,
    context: &mut LiveContext,
    value: Value,
) -> Result<Value, AllocError>
    requires serves { R.serves around.now.runner.now around.now.program.now }
    requires typed { Typed around.now.program.now }
    requires keeps { Keeps around.now.program.now }
    requires fits { ContextFits around.now.program.now context.old }
    requires event { IsEvent around.now.program.now.types value (out-Value value) }
    requires fuel { InRange context.old }
    ensures means { OnOk result (context.new ≡ one_turn around.now.program.now (stimulus.Unmatched value) context.old) }
    ensures gives { IfOk result (λ v. v ≡ value) }
    ensures small { OnOk result (InRange context.new) }
{
    let stimulus = Stimulus::Unmatched(value);
    one_turn(around, context, &stimulus)?;
    Ok(event_in(stimulus))
}

/// The turns of an event: one for all templates but unmatched ones, and where no ordinary template fitted one for those.
fn event_turns<R: BodyRunner>(
    around: &Around<'_, R>,
    context: &mut LiveContext,
    value: Value,
) -> Result<Value, AllocError>
    requires serves { R.serves around.now.runner.now around.now.program.now }
    requires typed { Typed around.now.program.now }
    requires keeps { Keeps around.now.program.now }
    requires fits { ContextFits around.now.program.now context.old }
    requires event { IsEvent around.now.program.now.types value (out-Value value) }
    requires fuel { InRange context.old }
    ensures means { OnOk result (context.new ≡ event_turns around.now.program.now value context.old) }
    ensures gives { IfOk result (λ v. v ≡ value) }
    ensures small { OnOk result (InRange context.new) }
{
    let stimulus = Stimulus::Event(value);
    let fitted = turn(around, context, &stimulus)?;
    let value = event_in(stimulus);
    if fitted {
        return Ok(value);
    }
    if context.is_spent() {
        return Ok(value);
    }
    unmatched_turn(around, context, value)
}

/// The live listeners meet an event, which is charged; without an instance nothing is done.
pub fn meet_event<R: BodyRunner>(
    around: &Around<'_, R>,
    context: &mut LiveContext,
    value: Value,
) -> Result<Value, AllocError>
    requires serves { R.serves around.now.runner.now around.now.program.now }
    requires typed { Typed around.now.program.now }
    requires keeps { Keeps around.now.program.now }
    requires fits { ContextFits around.now.program.now context.old }
    requires event { IsEvent around.now.program.now.types value (out-Value value) }
    requires fuel { InRange context.old }
    ensures means { OnOk result (context.new ≡ met around.now.program.now (waiting.Event value) context.old) }
    ensures gives { IfOk result (λ v. v ≡ value) }
    ensures small { OnOk result (InRange context.new) }
{
    if !context.has_instances() {
        return Ok(value);
    }
    if !charge(context, 5) {
        return Ok(value);
    }
    event_turns(around, context, value)
}

/// The live listeners meet the mark of an event, which is charged; without an instance nothing is done.
pub fn meet_mark<R: BodyRunner>(
    around: &Around<'_, R>,
    context: &mut LiveContext,
    value: Value,
) -> Result<Value, AllocError>
    requires serves { R.serves around.now.runner.now around.now.program.now }
    requires typed { Typed around.now.program.now }
    requires keeps { Keeps around.now.program.now }
    requires fits { ContextFits around.now.program.now context.old }
    requires event { IsEvent around.now.program.now.types value (out-Value value) }
    requires fuel { InRange context.old }
    ensures means { OnOk result (context.new ≡ met around.now.program.now (waiting.Completed value) context.old) }
    ensures gives { IfOk result (λ v. v ≡ value) }
    ensures small { OnOk result (InRange context.new) }
{
    if !context.has_instances() {
        return Ok(value);
    }
    let enough = charge(context, 5);
    if !enough {
        return Ok(value);
    }
    let stimulus = Stimulus::Completed(value);
    one_turn(around, context, &stimulus)?;
    Ok(event_in(stimulus))
}

/// A time sets the clock, and the live listeners meet it, which is charged where there is an instance.
pub fn meet_time<R: BodyRunner>(
    around: &Around<'_, R>,
    context: &mut LiveContext,
    now: i128,
) -> Result<(), AllocError>
    requires serves { R.serves around.now.runner.now around.now.program.now }
    requires typed { Typed around.now.program.now }
    requires keeps { Keeps around.now.program.now }
    requires fits { ContextFits around.now.program.now context.old }
    requires time { IsTime now }
    requires fuel { InRange context.old }
    ensures means { OnOk result (context.new ≡ timed around.now.program.now now context.old) }
    ensures small { OnOk result (InRange context.new) }
{
    if !context.has_instances() {
        context.set_clock(now);
        return Ok(());
    }
    if !charge(context, 5) {
        return Ok(());
    }
    context.set_clock(now);
    let stimulus = Stimulus::Time(now);
    one_turn(around, context, &stimulus)
}

/// A thing is handled; what it put in the row, and its mark, stand before what waits.
pub fn thing<R: BodyRunner>(
    around: &Around<'_, R>,
    context: &mut LiveContext,
    thing: Waiting,
) -> Result<(), AllocError>
    requires serves { R.serves around.now.runner.now around.now.program.now }
    requires typed { Typed around.now.program.now }
    requires keeps { Keeps around.now.program.now }
    requires fits { ContextFits around.now.program.now context.old }
    requires thing { WaitingFits around.now.program.now thing }
    requires fuel { InRange context.old }
    ensures means { OnOk result (context.new ≡ thing_handled around.now.program.now thing context.old) }
    ensures small { OnOk result (InRange context.new) }
{
    match thing {
        Waiting::Event(value) => {
            let value = meet_event(around, context, value)?;
            context.put_in_front(Some(Waiting::Completed(value)))
        }
        Waiting::Completed(value) => {
            let _value = meet_mark(around, context, value)?;
            context.put_in_front(None)
        }
    }
}
