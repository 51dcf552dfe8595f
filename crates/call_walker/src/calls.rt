ghost use Rattle.std.specs.Prelude.{◌≡◌, [], List, ◌++◌, map, slice_set, IfOk, MatchOption};
ghost use Rattle.epl_values.specs.declared.value.Value.{Value};
ghost use Rattle.value_rules.specs.Defaults.{default_of};
ghost use Rattle.body_meaning.specs.Acts.{begun_by, calls, enter, initials_from, or_none, returned, runs};
ghost use Rattle.value_steps.specs.Orderly.{IsOrderly, AreOrderly};
ghost use Rattle.path_bases.specs.Locals.{values_in};
ghost use Rattle.path_bases.specs.Tells.{Tells};
ghost use Rattle.stmt_walker.specs.Flows.{IsOrderlyAnswer, IsOrderlyFlow};
ghost use Rattle.expr_walker.specs.CallsBy.{CallsBy};

use action_host::{Fault, Host};
use body_meaning::Flow;
use epl_values::{EventShapes, Shapes, Value, Values};
use expr_walker::Walker;
use lists::List;
use path_bases::{Got, Gots};
use std::alloc::{AllocError, Global};
use std::marker::PhantomData;
use stmt_walker::Body;
use typed_program::{Monitor, Program, Stmts};
use value_rules::default_of;
use walk_rules::{Stop, pay};

/// What a call costs.
const CALL: u64 = 1;

/// How deep calls nest at most.
const DEPTH: u16 = 256;

/// A call of an action, with so many more calls that may nest.
fn enter<H: Host>(
    alloc: Global,
    program: &Program,
    depth: u16,
    number: u16,
    arguments: Gots<'_>,
    globals: &mut Values,
    host: &mut H,
) -> Result<Value, Stop>
    requires globals { AreOrderly globals.old }
    requires arguments { AreOrderly (values_in arguments) }
    ensures means { (outer : List Value) → Tells (enter program.now depth number (values_in arguments.entry)) (H.told host.old) (record { globals = globals.old; locals = outer }) (H.told host.new) (record { globals = globals.new; locals = outer }) result }
    ensures kept { AreOrderly globals.new }
    ensures order { IfOk result IsOrderly }
{
    if depth == 0 {
        return Err(Stop::from(Fault::CallDepth));
    }
    pay(host, CALL)?;
    let Some(action) = program.actions.as_slice().get(number as usize) else {
        return Ok(Value::NoContext);
    };
    let body = Body {
        alloc,
        program,
        depth: depth - 1,
        call: enter::<H>,
        host: PhantomData,
    };
    let value = over(
        &body,
        &action.locals,
        &action.body,
        arguments,
        globals,
        host,
    )?;
    Ok(or_none(value))
}

/// No value counts as no context.
pub fn or_none(value: Option<Value>) -> Value
    requires { IsOrderlyAnswer value }
    ensures is { result ≡ or_none value }
    ensures order { IsOrderly result }
{
    match value {
        Some(value) => value,
        None => Value::NoContext,
    }
}

/// Adds the defaults of further locals.
fn with_defaults<'x>(
    alloc: Global,
    types: &EventShapes,
    arguments: Gots<'x>,
    shapes: &Shapes,
) -> Result<Gots<'x>, AllocError>
    requires { AreOrderly (values_in arguments) }
    ensures values { IfOk result (λ gots. values_in gots ≡ values_in arguments.entry ++ map (default_of types.now) shapes.now) }
    ensures order { IfOk result (λ gots. AreOrderly (values_in gots)) }
{
    let mut locals = arguments;
    for shape in shapes.as_slice() {
        let value = default_of(alloc, shape, types)?;
        locals.push(Got::Own(value))?;
    }
    Ok(locals)
}

/// The statements of a body over its arguments and further locals.
pub fn over<
    H: Host,
    F: Fn(Global, &Program, u16, u16, Gots<'_>, &mut Values, &mut H) -> Result<Value, Stop> + Copy,
>(
    body: &Body<'_, H, F>,
    shapes: &Shapes,
    stmts: &Stmts,
    arguments: Gots<'_>,
    globals: &mut Values,
    host: &mut H,
) -> Result<Option<Value>, Stop>
    requires calls { CallsBy H.told body.now.program.now body.now.depth (F.pre body.now.call) (F.post body.now.call) }
    requires globals { AreOrderly globals.old }
    requires arguments { AreOrderly (values_in arguments) }
    ensures means { (outer : List Value) → Tells (runs body.now.program.now (enter body.now.program.now body.now.depth) shapes.now stmts.now (values_in arguments.entry)) (H.told host.old) (record { globals = globals.old; locals = outer }) (H.told host.new) (record { globals = globals.new; locals = outer }) result }
    ensures kept { AreOrderly globals.new }
    ensures order { IfOk result IsOrderlyAnswer }
{
    let mut locals = with_defaults(body.alloc, &body.program.types, arguments, shapes)?;
    let flow = body.row(stmts.as_slice(), &mut locals, globals, host)?;
    Ok(returned(flow))
}

/// What a body returns.
fn returned(flow: Flow) -> Option<Value>
    requires { IsOrderlyFlow flow }
    ensures is { result ≡ returned flow }
    ensures order { IsOrderlyAnswer result }
{
    match flow {
        Flow::Returned(value) => value,
        _ => None,
    }
}

/// Stores the initial value of a global, where it has a place.
fn store_initial(globals: &mut Values, number: usize, value: Value)
    requires globals { AreOrderly globals.old }
    requires value { IsOrderly value }
    ensures is { globals.new ≡ slice_set globals.old number value }
    ensures kept { AreOrderly globals.new }
{
    if number < globals.len() {
        let _old = globals.set(number, value);
    }
}

/// The initial values of the globals of a monitor, in order.
fn initials<H: Host>(
    alloc: Global,
    program: &Program,
    monitor: &Monitor,
    globals: &mut Values,
    host: &mut H,
) -> Result<(), Stop>
    requires globals { AreOrderly globals.old }
    ensures means { Tells (initials_from program.now 0 monitor.now.globals) (H.told host.old) (record { globals = globals.old; locals = [] }) (H.told host.new) (record { globals = globals.new; locals = [] }) result }
    ensures kept { AreOrderly globals.new }
{
    let none = List::new(alloc);
    let walker = Walker {
        alloc,
        program,
        depth: DEPTH,
        locals: &none,
        call: enter::<H>,
        host: PhantomData,
    };
    for (number, global) in monitor.globals.as_slice().iter().enumerate() {
        if let Some(e) = &global.initial {
            let value = walker.value(e, globals, host)?;
            store_initial(globals, number, value);
        }
    }
    Ok(())
}

/// The monitor whose `onload` this is.
fn begun_by(program: &Program, number: u16) -> Option<&Monitor>
    ensures { MatchOption result (begun_by program.now number program.now.monitors ≡ []) (λ monitor. begun_by program.now number program.now.monitors ≡ monitor.now.globals) }
{
    program
        .monitors
        .as_slice()
        .iter()
        .find(|monitor| monitor.onload == number)
}

/// The initial values that a body begins with, where it is the `onload` of a monitor.
pub fn begin<H: Host>(
    alloc: Global,
    program: &Program,
    number: u16,
    globals: &mut Values,
    host: &mut H,
) -> Result<(), Stop>
    requires globals { AreOrderly globals.old }
    ensures means { Tells (initials_from program.now 0 (begun_by program.now number program.now.monitors)) (H.told host.old) (record { globals = globals.old; locals = [] }) (H.told host.new) (record { globals = globals.new; locals = [] }) result }
    ensures kept { AreOrderly globals.new }
{
    match begun_by(program, number) {
        Some(monitor) => initials(alloc, program, monitor, globals, host),
        None => Ok(()),
    }
}

/// The statements of a body over its arguments and further locals, with as many calls below them as may nest.
pub fn run_statements<H: Host>(
    alloc: Global,
    program: &Program,
    shapes: &Shapes,
    stmts: &Stmts,
    arguments: Gots<'_>,
    globals: &mut Values,
    host: &mut H,
) -> Result<Option<Value>, Stop>
    requires globals { AreOrderly globals.old }
    requires arguments { AreOrderly (values_in arguments) }
    ensures { (outer : List Value) → Tells (runs program.now (calls program.now) shapes.now stmts.now (values_in arguments.entry)) (H.told host.old) (record { globals = globals.old; locals = outer }) (H.told host.new) (record { globals = globals.new; locals = outer }) result }
{
    let body = Body {
        alloc,
        program,
        depth: DEPTH,
        call: enter::<H>,
        host: PhantomData,
    };
    over(&body, shapes, stmts, arguments, globals, host)
}
