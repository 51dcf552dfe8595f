ghost use Rattle.std.specs.Prelude.{◌≡◌, ◌<◌, ◌≤◌, ◌+◌, ◌-◌, ◌^◌, [], ◌∷◌, length, map, slice_get, Some, IfOk, OnOk};
ghost use Rattle.std.specs.Option.{option_copied};
ghost use Rattle.epl_values.specs.declared.value.Value.{Value, out-Value};
ghost use Rattle.typed_program.specs.Typed.{Typed};
ghost use Rattle.value_rules.specs.Defaults.{default_of};
ghost use Rattle.value_shapes.specs.Fits.{IsEvent};
ghost use Rattle.context_meaning.specs.declared.context.Waiting.TheVariants as waiting;
ghost use Rattle.record_book.specs.declared.cargo.Cargo.TheVariants as load;
ghost use Rattle.context_meaning.specs.Handling.{cargo_handled, handle, load_handled, met, settled};
ghost use Rattle.context_meaning.specs.Contexts.{row_in_front};
ghost use Rattle.context_meaning.specs.Fits.{ContextFits};
ghost use Rattle.record_book.specs.Fits.{CargoFits, IsTime};
ghost use Rattle.context_steps.specs.Steps.{InRange, Keeps, begun_with, SettlesAs};

use crate::around::Around;
use crate::callbacks::charge;
use crate::ends::run;
use crate::things::{meet_event, meet_mark, meet_time, thing};
use body_runs::BodyRunner;
use context_meaning::{Waiting, front_settles};
use epl_values::{EventShapes, List, Value, Values, copy};
use live_context::LiveContext;
use record_book::Cargo;
use std::alloc::{AllocError, Global};
use term_shapes::expressions_keep_shapes;
use typed_program::{Global as Variable, Monitor, Program};
use typed_runs::runs_keep_shapes;
use value_rules::default_of;

/// The greatest number of a handling.
const LAST_NUMBER: u64 = 1 << 62;

// ---- a load

/// The defaults of the shapes of globals.
fn defaults_of(
    alloc: Global,
    types: &EventShapes,
    globals: &[Variable],
) -> Result<Values, AllocError>
    ensures { IfOk result (λ values. values ≡ map (λ g. default_of types.now g.shape) globals.now) }
{
    let mut values = List::new(alloc);
    for global in globals {
        values.push(default_of(alloc, &global.shape, types)?)?;
    }
    Ok(values)
}

/// An instance of a monitor begins, and its `onload` runs.
fn begin_monitor<R: BodyRunner>(
    around: &Around<'_, R>,
    context: &mut LiveContext,
    number: u16,
    monitor: &Monitor,
) -> Result<(), AllocError>
    requires serves { R.serves around.now.runner.now around.now.program.now }
    requires typed { Typed around.now.program.now }
    requires keeps { Keeps around.now.program.now }
    requires fits { ContextFits around.now.program.now context.old }
    requires there { slice_get around.now.program.now.monitors number ≡ Some monitor.now }
    requires fuel { InRange context.old }
    ensures means { OnOk result (context.new ≡ begun_with around.now.program.now number monitor.now context.old) }
    ensures small { OnOk result (InRange context.new) }
{
    let globals = defaults_of(
        around.alloc,
        &around.program.types,
        monitor.globals.as_slice(),
    )?;
    let instance = context.begin(number, globals)?;
    run(
        around,
        context,
        instance,
        monitor.onload,
        List::new(around.alloc),
    )
}

fn monitor_at(program: &Program, number: u16) -> Option<&Monitor>
    ensures { option_copied result ≡ slice_get program.now.monitors number }
{
    program.monitors.as_slice().get(number as usize)
}

/// An instance begins, which is charged.
fn load<R: BodyRunner>(
    around: &Around<'_, R>,
    context: &mut LiveContext,
    monitor: u16,
) -> Result<(), AllocError>
    requires serves { R.serves around.now.runner.now around.now.program.now }
    requires typed { Typed around.now.program.now }
    requires keeps { Keeps around.now.program.now }
    requires fits { ContextFits around.now.program.now context.old }
    requires fuel { InRange context.old }
    ensures means { OnOk result (context.new ≡ load_handled around.now.program.now monitor context.old) }
    ensures small { OnOk result (InRange context.new) }
{
    if !charge(context, 5) {
        return Ok(());
    }
    match monitor_at(around.program, monitor) {
        None => Ok(()),
        Some(found) => begin_monitor(around, context, monitor, found),
    }
}

// ---- an entry

/// The mark of an event comes next, and is handled at once.
fn mark_now<R: BodyRunner>(
    around: &Around<'_, R>,
    context: &mut LiveContext,
    value: Value,
) -> Result<Value, AllocError>
    requires serves { R.serves around.now.runner.now around.now.program.now }
    requires typed { Typed around.now.program.now }
    requires keeps { Keeps around.now.program.now }
    requires fits { ContextFits around.now.program.now context.old }
    requires event { IsEvent around.now.program.now.types value (out-Value value) }
    requires fuel { InRange context.old }
    ensures means { OnOk result (context.new ≡ row_in_front [] (met around.now.program.now (waiting.Completed value) context.old)) }
    ensures gives { IfOk result (λ v. v ≡ value) }
    ensures small { OnOk result (InRange context.new) }
{
    let value = meet_mark(around, context, value)?;
    context.put_in_front(None)?;
    Ok(value)
}

/// The row, and then a mark with a copy of the event, stand before what waits.
fn put_mark(alloc: Global, context: &mut LiveContext, value: Value) -> Result<Value, AllocError>
    requires fuel { InRange context.old }
    ensures means { OnOk result (context.new ≡ row_in_front (waiting.Completed value ∷ []) context.old) }
    ensures gives { IfOk result (λ v. v ≡ value) }
    ensures small { OnOk result (InRange context.new) }
{
    let completed = copy(alloc, &value)?;
    context.put_in_front(Some(Waiting::Completed(completed)))?;
    Ok(value)
}

/// The event of an entry is handled. Where nothing was put in the row its mark comes next, and is handled at once.
fn entry_event<R: BodyRunner>(
    around: &Around<'_, R>,
    context: &mut LiveContext,
    value: Value,
) -> Result<Value, AllocError>
    requires serves { R.serves around.now.runner.now around.now.program.now }
    requires typed { Typed around.now.program.now }
    requires keeps { Keeps around.now.program.now }
    requires fits { ContextFits around.now.program.now context.old }
    requires event { IsEvent around.now.program.now.types value (out-Value value) }
    requires fuel { InRange context.old }
    ensures means { OnOk result (SettlesAs around.now.program.now (load.Event value) context.old context.new) }
    ensures gives { IfOk result (λ v. v ≡ value) }
    ensures small { OnOk result (InRange context.new) }
{
    let value = meet_event(around, context, value)?;
    if context.is_spent() {
        return put_mark(around.alloc, context, value);
    }
    if context.is_row_empty() {
        mark_now(around, context, value)
    } else {
        put_mark(around.alloc, context, value)
    }
}

/// A load is handled.
fn entry_load<R: BodyRunner>(
    around: &Around<'_, R>,
    context: &mut LiveContext,
    monitor: u16,
) -> Result<(), AllocError>
    requires serves { R.serves around.now.runner.now around.now.program.now }
    requires typed { Typed around.now.program.now }
    requires keeps { Keeps around.now.program.now }
    requires fits { ContextFits around.now.program.now context.old }
    requires there { monitor < length around.now.program.now.monitors }
    requires fuel { InRange context.old }
    ensures means { OnOk result (SettlesAs around.now.program.now (load.Load monitor) context.old context.new) }
    ensures small { OnOk result (InRange context.new) }
{
    load(around, context, monitor)?;
    context.put_in_front(None)
}

/// A time is handled.
fn entry_time<R: BodyRunner>(
    around: &Around<'_, R>,
    context: &mut LiveContext,
    now: i128,
) -> Result<(), AllocError>
    requires serves { R.serves around.now.runner.now around.now.program.now }
    requires typed { Typed around.now.program.now }
    requires keeps { Keeps around.now.program.now }
    requires fits { ContextFits around.now.program.now context.old }
    requires time { IsTime now }
    requires fuel { InRange context.old }
    ensures means { OnOk result (SettlesAs around.now.program.now (load.Time now) context.old context.new) }
    ensures small { OnOk result (InRange context.new) }
{
    meet_time(around, context, now)?;
    context.put_in_front(None)
}

/// What an entry carries is handled.
fn entry<R: BodyRunner>(
    around: &Around<'_, R>,
    context: &mut LiveContext,
    cargo: Cargo,
) -> Result<Cargo, AllocError>
    requires serves { R.serves around.now.runner.now around.now.program.now }
    requires typed { Typed around.now.program.now }
    requires keeps { Keeps around.now.program.now }
    requires fits { ContextFits around.now.program.now context.old }
    requires cargo { CargoFits around.now.program.now cargo }
    requires fuel { InRange context.old }
    ensures means { OnOk result (SettlesAs around.now.program.now cargo context.old context.new) }
    ensures gives { IfOk result (λ c. c ≡ cargo) }
    ensures small { OnOk result (InRange context.new) }
{
    match cargo {
        Cargo::Load(monitor) => {
            entry_load(around, context, monitor)?;
            Ok(Cargo::Load(monitor))
        }
        Cargo::Event(value) => {
            let value = entry_event(around, context, value)?;
            Ok(Cargo::Event(value))
        }
        Cargo::Time(now) => {
            entry_time(around, context, now)?;
            Ok(Cargo::Time(now))
        }
    }
}

// ---- the front

/// The first in front is handled, again and again, while there is one.
fn settle<R: BodyRunner>(
    around: &Around<'_, R>,
    context: &mut LiveContext,
) -> Result<(), AllocError>
    requires serves { R.serves around.now.runner.now around.now.program.now }
    requires typed { Typed around.now.program.now }
    requires keeps { Keeps around.now.program.now }
    requires fits { ContextFits around.now.program.now context.old }
    requires row { context.old.row ≡ [] }
    requires fuel { InRange context.old }
    ensures { OnOk result (context.new ≡ settled around.now.program.now context.old) }
{
    front_settles();
    'front: while !context.is_spent() {
        let Some(first) = context.take_first() else {
            return Ok(());
        };
        thing(around, context, first)?;
    }
    Ok(())
}

/// What an entry carries is handled, and then what that put in front.
fn whole<R: BodyRunner>(
    around: &Around<'_, R>,
    context: &mut LiveContext,
    cargo: Cargo,
) -> Result<Cargo, AllocError>
    requires serves { R.serves around.now.runner.now around.now.program.now }
    requires typed { Typed around.now.program.now }
    requires keeps { Keeps around.now.program.now }
    requires fits { ContextFits around.now.program.now context.old }
    requires cargo { CargoFits around.now.program.now cargo }
    requires fuel { InRange context.old }
    ensures means { OnOk result (context.new ≡ settled around.now.program.now (cargo_handled around.now.program.now cargo context.old)) }
    ensures gives { IfOk result (λ c. c ≡ cargo) }
{
    let cargo = entry(around, context, cargo)?;
    settle(around, context)?;
    Ok(cargo)
}

fn handle_kept<R: BodyRunner>(
    around: &Around<'_, R>,
    context: &mut LiveContext,
    number: u64,
    cargo: Cargo,
) -> Result<Cargo, AllocError>
    requires serves { R.serves around.now.runner.now around.now.program.now }
    requires typed { Typed around.now.program.now }
    requires keeps { Keeps around.now.program.now }
    requires fits { ContextFits around.now.program.now context.old }
    requires cargo { CargoFits around.now.program.now cargo }
    requires fuel { InRange context.old }
    ensures means { OnOk result (context.new ≡ handle around.now.program.now context.old number cargo) }
    ensures gives { IfOk result (λ c. c ≡ cargo) }
{
    if number > LAST_NUMBER {
        context.spend();
        return Ok(cargo);
    }
    whole(around, context, cargo)
}

/// Handles what an entry carries under the number of the handling, as naive evaluation does, and gives the cargo back. After want
/// of memory nothing is said of the context.
pub fn handle<R: BodyRunner>(
    runner: &R,
    alloc: Global,
    program: &Program,
    context: &mut LiveContext,
    number: u64,
    cargo: Cargo,
) -> Result<Cargo, AllocError>
    requires serves { R.serves runner.now program.now }
    requires typed { Typed program.now }
    requires fits { ContextFits program.now context.old }
    requires cargo { CargoFits program.now cargo }
    requires fuel { context.old.fuel < 2 ^ 64 - 1 }
    ensures means { OnOk result (context.new ≡ handle program.now context.old number cargo) }
    ensures fits { OnOk result (ContextFits program.now context.new) }
    ensures row { OnOk result (context.old.row ≡ [] → context.new.row ≡ []) }
    ensures fuel { OnOk result (context.new.fuel ≤ context.old.fuel) }
    ensures slot { OnOk result ((context.new.slot ≡ context.old.slot) × (context.new.slots ≡ context.old.slots)) }
    ensures gives { IfOk result (λ c. c ≡ cargo) }
{
    runs_keep_shapes();
    expressions_keep_shapes();
    let around = Around {
        runner,
        alloc,
        program,
    };
    handle_kept(&around, context, number, cargo)
}
