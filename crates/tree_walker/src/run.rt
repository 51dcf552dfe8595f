ghost use Rattle.std.specs.Prelude.{◌≡◌, [], IfOk};
ghost use Rattle.value_steps.specs.Orderly.{AreOrderly};
ghost use Rattle.body_meaning.specs.Acts.{act};
ghost use Rattle.path_bases.specs.Locals.{values_in};
ghost use Rattle.path_bases.specs.Tells.{Tells};
ghost use Rattle.typed_program.specs.Typed.{Typed};
ghost use Rattle.typed_runs.specs.Bodies.{BodyFits, StillFit, head_of};
ghost use Rattle.body_runs.specs.Comes.{Comes};

use action_host::{End, Host};
use body_meaning::Halt;
use call_walker::{begin, run_statements};
use epl_values::{Value, Values};
use lists::List;
use path_bases::{Got, Gots};
use std::alloc::{AllocError, Global};
use typed_program::Program;
use typed_runs::runs_keep_shapes;
use walk_rules::{Stop, pay};

/// What a run costs.
const RUN: u64 = 1;

/// Takes the fuel of a run, and runs a body over its arguments.
fn act<H: Host>(
    alloc: Global,
    program: &Program,
    number: u16,
    locals: Gots<'_>,
    globals: &mut Values,
    host: &mut H,
) -> Result<Option<Value>, Stop>
    requires globals { AreOrderly globals.old }
    requires locals { AreOrderly (values_in locals) }
    ensures means { Tells (act program.now number (values_in locals.entry)) (H.told host.old) (record { globals = globals.old; locals = [] }) (H.told host.new) (record { globals = globals.new; locals = [] }) result }
{
    pay(host, RUN)?;
    let actions = program.actions.as_slice();
    let at = number as usize;
    if at < actions.len() {
        let action = &actions[at];
        begin(alloc, program, number, globals, host)?;
        return run_statements(
            alloc,
            program,
            &action.locals,
            &action.body,
            locals,
            globals,
            host,
        );
    }
    match program.sites.as_slice().get(at - actions.len()) {
        Some(site) => run_statements(
            alloc,
            program,
            &site.locals,
            &site.body,
            locals,
            globals,
            host,
        ),
        None => Ok(None),
    }
}

/// Values as locals of a body.
fn own_locals(alloc: Global, values: Values) -> Result<Gots<'static>, AllocError>
    ensures { IfOk result (λ gots. values_in gots ≡ values) }
{
    let mut own = List::new(alloc);
    for value in values.into_vec() {
        own.push(Got::Own(value))?;
    }
    Ok(own)
}

/// Runs a body over the globals of its instance: an action by its number, and behind the actions the callbacks by the numbers of
/// their sites. The locals are its arguments. Where there is no memory the globals have their shapes, and nothing else is said.
pub fn run_action<H: Host>(
    alloc: Global,
    program: &Program,
    body: u16,
    globals: &mut Values,
    locals: Values,
    host: &mut H,
) -> Result<End, AllocError>
    requires typed { Typed program.now }
    requires fits { BodyFits program.now body globals.old locals }
    ensures comes { IfOk result (λ end. Comes program.now body globals.old locals (H.told host.old) (H.told host.new) globals.new end) }
    ensures shapes { StillFit program.now globals.new (head_of program.now body) }
{
    runs_keep_shapes();
    let own = own_locals(alloc, locals)?;
    match act(alloc, program, body, own, globals, host) {
        Ok(value) => Ok(End::Done(value)),
        Err(Stop::Halted(Halt::Died)) => Ok(End::Died),
        Err(Stop::Halted(Halt::Failed(fault))) => Ok(End::Failed(fault)),
        Err(Stop::Halted(Halt::Spent)) => Ok(End::Spent),
        Err(Stop::Memory) => Err(AllocError),
    }
}
