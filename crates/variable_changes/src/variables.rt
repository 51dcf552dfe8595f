ghost use Rattle.std.specs.Prelude.{◌≡◌, ◌<◌, length, slice_get, slice_set, IfOk, OnErr, OnOk, Some};
ghost use Rattle.epl_values.specs.declared.value.Value.TheVariants.{NoContext};
ghost use Rattle.action_host.specs.Told.{Told};
ghost use Rattle.body_meaning.specs.Paths.{change_variable};
ghost use Rattle.body_meaning.specs.Runs.{change};
ghost use Rattle.value_steps.specs.Changed.{Leaves};
ghost use Rattle.value_steps.specs.Orderly.{AreOrderly, AreOrderlyMoves, IsOrderly};
ghost use Rattle.walk_rules.specs.Ran.{Walks};
ghost use Rattle.variable_changes.specs.Changes.{does_at, value_changed, IsOrderlyChange};
ghost use Rattle.path_bases.specs.Locals.{frame_of, values_in};
ghost use Rattle.path_bases.specs.Stops.{stopped};

use body_meaning::Move;
use epl_values::{Value, Values, copy};
use lists::List;
use path_bases::{Got, Gots, stop_of};
use std::alloc::{AllocError, Global};
use typed_program::{Method, Variable};
use value_steps::{Trouble, alter, store};
use walk_rules::Stop;

/// The answer of a step on values, for a run.
fn stopped(done: Result<(), Trouble>) -> Result<(), Stop>
    ensures { result ≡ stopped done }
{
    match done {
        Ok(()) => Ok(()),
        Err(trouble) => Err(stop_of(trouble)),
    }
}

/// What is done to the value of a variable.
#[derive(Drop)]
pub enum Change {
    /// Stores a value there.
    Store(Value),
    /// Calls a method on it with arguments.
    Call(Method, Values),
}

/// Does to a value what is to be done.
fn make(alloc: Global, value: &mut Value, moves: List<Move>, done: Change) -> Result<(), Trouble>
    requires whole { IsOrderly value.old }
    requires moved { AreOrderlyMoves moves }
    requires brought { IsOrderlyChange done }
    ensures done { Leaves result value.new value.old (does_at moves done value.old) }
    ensures order { IsOrderly value.new }
{
    match done {
        Change::Store(part) => store(alloc, value, moves, part),
        Change::Call(method, arguments) => alter(alloc, value, moves.as_slice(), method, arguments),
    }
}

/// Changes a value that no variable holds: nothing of it is seen but its fault.
fn change_none(alloc: Global, moves: List<Move>, done: Change) -> Result<(), Trouble>
    requires moved { AreOrderlyMoves moves }
    requires brought { IsOrderlyChange done }
    ensures { (left : _) × Leaves result left NoContext (does_at moves done NoContext) }
{
    let mut value = Value::NoContext;
    make(alloc, &mut value, moves, done)
}

/// Changes a global in place. One that isn't there stays away.
fn change_global(
    alloc: Global,
    globals: &mut Values,
    number: u16,
    moves: List<Move>,
    done: Change,
) -> Result<(), Trouble>
    requires whole { AreOrderly globals.old }
    requires moved { AreOrderlyMoves moves }
    requires brought { IsOrderlyChange done }
    ensures done { Leaves result globals.new globals.old (value_changed globals.old number (does_at moves done)) }
    ensures order { AreOrderly globals.new }
{
    let at = number as usize;
    if at < globals.len() {
        let mut value = globals.set(at, Value::NoContext);
        let result = make(alloc, &mut value, moves, done);
        let _hole = globals.set(at, value);
        result
    } else {
        change_none(alloc, moves, done)
    }
}

/// Takes the value of a local, or a copy where it is lent, and leaves no context there.
fn take_local(alloc: Global, locals: &mut Gots<'_>, at: usize) -> Result<Value, AllocError>
    requires { at < length locals.old }
    ensures value { IfOk result (λ v. slice_get (values_in locals.old) at ≡ Some v) }
    ensures left { OnOk result (values_in locals.new ≡ slice_set (values_in locals.old) at NoContext) }
    ensures err { OnErr result (values_in locals.new ≡ values_in locals.old) }
    ensures count { length locals.new ≡ length locals.old }
{
    match locals.set(at, Got::Own(Value::NoContext)) {
        Got::Own(value) => Ok(value),
        Got::Lent(value) => match copy(alloc, value) {
            Ok(copied) => Ok(copied),
            Err(error) => {
                let _hole = locals.set(at, Got::Lent(value));
                Err(error)
            }
        },
    }
}

/// Changes a local in place, or its copy where it is lent. One that isn't there stays away.
fn change_local(
    alloc: Global,
    locals: &mut Gots<'_>,
    number: u16,
    moves: List<Move>,
    done: Change,
) -> Result<(), Trouble>
    requires whole { AreOrderly (values_in locals.old) }
    requires moved { AreOrderlyMoves moves }
    requires brought { IsOrderlyChange done }
    ensures done { Leaves result (values_in locals.new) (values_in locals.old) (value_changed (values_in locals.old) number (does_at moves done)) }
    ensures order { AreOrderly (values_in locals.new) }
{
    let at = number as usize;
    if at < locals.len() {
        let mut value = take_local(alloc, locals, at)?;
        let result = make(alloc, &mut value, moves, done);
        let _hole = locals.set(at, Got::Own(value));
        result
    } else {
        change_none(alloc, moves, done)
    }
}

/// Changes a variable in place.
pub fn change_variable(
    alloc: Global,
    variable: Variable,
    locals: &mut Gots<'_>,
    globals: &mut Values,
    moves: List<Move>,
    done: Change,
) -> Result<(), Stop>
    requires globals { AreOrderly globals.old }
    requires locals { AreOrderly (values_in locals.old) }
    requires steps { AreOrderlyMoves moves }
    requires brought { IsOrderlyChange done }
    ensures means { (told : Told) → Walks (change (change_variable variable (does_at moves done))) told (frame_of globals.old locals.old) told (frame_of globals.new locals.new) result }
    ensures globals_kept { AreOrderly globals.new }
    ensures locals_kept { AreOrderly (values_in locals.new) }
{
    match variable {
        Variable::Global(number) => stopped(change_global(alloc, globals, number, moves, done)),
        Variable::Local(number) => stopped(change_local(alloc, locals, number, moves, done)),
    }
}

/// Gives a local a value.
pub fn set_local(locals: &mut Gots<'_>, number: u16, value: Value)
    requires order { AreOrderly (values_in locals.old) }
    requires value { IsOrderly value }
    ensures is { values_in locals.new ≡ slice_set (values_in locals.old) number value }
    ensures kept { AreOrderly (values_in locals.new) }
{
    let at = number as usize;
    if at < locals.len() {
        let _old = locals.set(at, Got::Own(value));
    }
}
