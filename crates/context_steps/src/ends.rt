ghost use Rattle.std.specs.Prelude.{◌≡◌, [], true, false, IfOk, OnOk};
ghost use Rattle.plain_host.specs.Told.{told_of};
ghost use Rattle.typed_program.specs.Typed.{Typed};
ghost use Rattle.context_meaning.specs.Contexts.{scene_of};
ghost use Rattle.context_meaning.specs.Ends.{run_in, fault_line, last_run, dying, ended, idle, idle_in, finished, ran};
ghost use Rattle.context_meaning.specs.Fits.{ContextFits};
ghost use Rattle.context_steps.specs.Steps.{numbered, ondie_of, CanRunIn, Stands, InRange, CameIn, Keeps, told_first};

use crate::around::Around;
use crate::effects::apply_all;
use action_host::{End, Fault};
use body_runs::BodyRunner;
use epl_values::{List, Values};
use live_context::{Lent, LiveContext};
use plain_host::PlainHost;
use record_book::Line;
use std::alloc::{AllocError, Global};
use typed_program::Program;

// ---- runs

/// What a run in an instance came to: the monitor of the instance, and how the run ended.
#[derive(Drop)]
pub struct Ran {
    pub monitor: u16,
    pub end: End,
}

/// The host of a run in a context.
fn host_of(alloc: Global, context: &LiveContext, ending: bool) -> PlainHost
    requires { InRange context.now }
    ensures { told_of result ≡ told_first (scene_of ending context.now) }
{
    PlainHost {
        alloc,
        slot: context.slot(),
        slots: context.slots(),
        fuel: context.fuel(),
        births: context.births(),
        made: 0,
        subscriptions: List::new(alloc),
        held: List::new(alloc),
        ending,
        taken: List::new(alloc),
    }
}

/// Runs a body over the globals of the instance with this number, where it is there, and puts what it comes to into the context.
fn run_in<R: BodyRunner>(
    around: &Around<'_, R>,
    context: &mut LiveContext,
    number: u64,
    ending: bool,
    body: u16,
    locals: Values,
) -> Result<Option<Ran>, AllocError>
    requires serves { R.serves around.now.runner.now around.now.program.now }
    requires typed { Typed around.now.program.now }
    requires runs { CanRunIn around.now.program.now number body locals context.old }
    requires fuel { InRange context.old }
    ensures { IfOk result (CameIn around.now.program.now ending number body locals context.old context.new) }
{
    let Some(lent) = context.lend(number) else {
        return Ok(None);
    };
    let Lent {
        monitor,
        mut globals,
    } = lent;
    let mut host = host_of(around.alloc, context, ending);
    let end = around.runner.run_action(
        around.alloc,
        around.program,
        body,
        &mut globals,
        locals,
        &mut host,
    )?;
    context.put_back(number, globals);
    let PlainHost { fuel, taken, .. } = host;
    context.set_fuel(fuel);
    apply_all(context, around.program, number, ending, taken)?;
    Ok(Some(Ran { monitor, end }))
}

// ---- how an instance ends

/// Prints the line of a fault.
fn fault_line(
    program: &Program,
    context: &mut LiveContext,
    monitor: u16,
    fault: Fault,
) -> Result<(), AllocError>
    ensures { OnOk result (context.new ≡ fault_line program.now (numbered 0 monitor) fault context.old) }
{
    context.print(Line::Fault(monitor, fault))
}

/// How a run of `ondie` ends.
fn last_run(
    program: &Program,
    context: &mut LiveContext,
    monitor: u16,
    end: End,
) -> Result<(), AllocError>
    requires fuel { InRange context.old }
    ensures means { OnOk result (context.new ≡ last_run program.now (numbered 0 monitor) end context.old) }
    ensures small { OnOk result (InRange context.new) }
{
    match end {
        End::Done(_value) => Ok(()),
        End::Died => Ok(()),
        End::Failed(fault) => fault_line(program, context, monitor, fault),
        End::Spent => {
            context.spend();
            Ok(())
        }
    }
}

/// The body `ondie` of a monitor.
fn ondie_of(program: &Program, monitor: u16) -> Option<u16>
    ensures { result ≡ ondie_of program.now monitor }
{
    match program.monitors.as_slice().get(monitor as usize) {
        None => None,
        Some(monitor) => monitor.ondie,
    }
}

/// Runs `ondie` in the instance with this number, where it is there.
fn run_ondie<R: BodyRunner>(
    around: &Around<'_, R>,
    context: &mut LiveContext,
    number: u64,
    body: u16,
) -> Result<(), AllocError>
    requires serves { R.serves around.now.runner.now around.now.program.now }
    requires typed { Typed around.now.program.now }
    requires runs { CanRunIn around.now.program.now number body [] context.old }
    requires fuel { InRange context.old }
    ensures means { OnOk result (context.new ≡ run_in around.now.program.now (last_run around.now.program.now) true body [] number context.old) }
    ensures small { OnOk result (InRange context.new) }
{
    let locals = List::new(around.alloc);
    match run_in(around, context, number, true, body, locals)? {
        None => Ok(()),
        Some(ran) => last_run(around.program, context, ran.monitor, ran.end),
    }
}

/// The `ondie` of an instance runs, where its monitor has one.
fn die<R: BodyRunner>(
    around: &Around<'_, R>,
    context: &mut LiveContext,
    number: u64,
    monitor: u16,
) -> Result<(), AllocError>
    requires serves { R.serves around.now.runner.now around.now.program.now }
    requires typed { Typed around.now.program.now }
    requires keeps { Keeps around.now.program.now }
    requires stands { Stands around.now.program.now number monitor context.old }
    requires fuel { InRange context.old }
    ensures means { OnOk result (context.new ≡ dying around.now.program.now (numbered number monitor) context.old) }
    ensures small { OnOk result (InRange context.new) }
{
    match ondie_of(around.program, monitor) {
        None => Ok(()),
        Some(body) => run_ondie(around, context, number, body),
    }
}

/// An instance ends.
fn end_instance<R: BodyRunner>(
    around: &Around<'_, R>,
    context: &mut LiveContext,
    number: u64,
    monitor: u16,
) -> Result<(), AllocError>
    requires serves { R.serves around.now.runner.now around.now.program.now }
    requires typed { Typed around.now.program.now }
    requires keeps { Keeps around.now.program.now }
    requires stands { Stands around.now.program.now number monitor context.old }
    requires fuel { InRange context.old }
    ensures means { OnOk result (context.new ≡ ended around.now.program.now (numbered number monitor) context.old) }
    ensures small { OnOk result (InRange context.new) }
{
    context.quit_all(number);
    die(around, context, number, monitor)?;
    if !context.is_spent() {
        context.remove(number);
    }
    Ok(())
}

/// An instance without a live listener ends.
fn end_if_idle<R: BodyRunner>(
    around: &Around<'_, R>,
    context: &mut LiveContext,
    number: u64,
    monitor: u16,
) -> Result<(), AllocError>
    requires serves { R.serves around.now.runner.now around.now.program.now }
    requires typed { Typed around.now.program.now }
    requires keeps { Keeps around.now.program.now }
    requires stands { Stands around.now.program.now number monitor context.old }
    requires fuel { InRange context.old }
    ensures means { OnOk result (context.new ≡ idle around.now.program.now (numbered number monitor) context.old) }
    ensures small { OnOk result (InRange context.new) }
{
    if context.is_busy(number) {
        return Ok(());
    }
    end_instance(around, context, number, monitor)
}

/// The same of the instance with this number, where it is there.
pub fn end_where_idle<R: BodyRunner>(
    around: &Around<'_, R>,
    context: &mut LiveContext,
    number: u64,
) -> Result<(), AllocError>
    requires serves { R.serves around.now.runner.now around.now.program.now }
    requires typed { Typed around.now.program.now }
    requires keeps { Keeps around.now.program.now }
    requires fits { ContextFits around.now.program.now context.old }
    requires fuel { InRange context.old }
    ensures means { OnOk result (context.new ≡ idle_in around.now.program.now number context.old) }
    ensures small { OnOk result (InRange context.new) }
{
    match context.monitor_of(number) {
        None => Ok(()),
        Some(monitor) => end_if_idle(around, context, number, monitor),
    }
}

/// A fault prints its line, and ends its instance.
fn end_by_fault<R: BodyRunner>(
    around: &Around<'_, R>,
    context: &mut LiveContext,
    number: u64,
    monitor: u16,
    fault: Fault,
) -> Result<(), AllocError>
    requires serves { R.serves around.now.runner.now around.now.program.now }
    requires typed { Typed around.now.program.now }
    requires keeps { Keeps around.now.program.now }
    requires stands { Stands around.now.program.now number monitor context.old }
    requires fuel { InRange context.old }
    ensures means { OnOk result (context.new ≡ ended around.now.program.now (numbered number monitor) (fault_line around.now.program.now (numbered number monitor) fault context.old)) }
    ensures small { OnOk result (InRange context.new) }
{
    fault_line(around.program, context, monitor, fault)?;
    end_instance(around, context, number, monitor)
}

/// How a run ends.
fn finish<R: BodyRunner>(
    around: &Around<'_, R>,
    context: &mut LiveContext,
    number: u64,
    monitor: u16,
    end: End,
) -> Result<(), AllocError>
    requires serves { R.serves around.now.runner.now around.now.program.now }
    requires typed { Typed around.now.program.now }
    requires keeps { Keeps around.now.program.now }
    requires stands { Stands around.now.program.now number monitor context.old }
    requires fuel { InRange context.old }
    ensures means { OnOk result (context.new ≡ finished around.now.program.now (numbered number monitor) end context.old) }
    ensures small { OnOk result (InRange context.new) }
{
    match end {
        End::Done(_value) => end_if_idle(around, context, number, monitor),
        End::Died => end_instance(around, context, number, monitor),
        End::Failed(fault) => end_by_fault(around, context, number, monitor, fault),
        End::Spent => {
            context.spend();
            Ok(())
        }
    }
}

/// Runs a body in the instance with this number, where it is there, and then ends the instance where the run ends it.
pub fn run<R: BodyRunner>(
    around: &Around<'_, R>,
    context: &mut LiveContext,
    number: u64,
    body: u16,
    locals: Values,
) -> Result<(), AllocError>
    requires serves { R.serves around.now.runner.now around.now.program.now }
    requires typed { Typed around.now.program.now }
    requires keeps { Keeps around.now.program.now }
    requires runs { CanRunIn around.now.program.now number body locals context.old }
    requires fuel { InRange context.old }
    ensures means { OnOk result (context.new ≡ ran around.now.program.now number body locals context.old) }
    ensures small { OnOk result (InRange context.new) }
{
    match run_in(around, context, number, false, body, locals)? {
        None => Ok(()),
        Some(ran) => finish(around, context, number, ran.monitor, ran.end),
    }
}
