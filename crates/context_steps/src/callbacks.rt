ghost use Rattle.std.specs.Prelude.{◌≡◌, ◌+◌, ◌++◌, Some, slice_get, length, nat_le, IfOk, OnOk};
ghost use Rattle.std.specs.Option.{option_copied};
ghost use Rattle.typed_program.specs.Typed.{Typed};
ghost use Rattle.term_meaning.specs.Operands.{event_of};
ghost use Rattle.term_shapes.specs.Kept.{CompletionFits, CompletionsFit};
ghost use Rattle.context_meaning.specs.Contexts.{listener_of, paid, unless_spent};
ghost use Rattle.context_meaning.specs.Fits.{ContextFits};
ghost use Rattle.context_meaning.specs.Listeners.{bound_from, bound_value, callback_locals};
ghost use Rattle.context_meaning.specs.Turns.{body_number, called as called_with, called_all, called_live};
ghost use Rattle.context_steps.specs.Calls.{called_in, is_live, listener_in};
ghost use Rattle.context_steps.specs.Steps.{CallerFits, InRange, Keeps};

use crate::around::Around;
use crate::ends::run;
use body_runs::BodyRunner;
use epl_values::{EventShapes, List, Value, Values, copy};
use live_context::LiveContext;
use std::alloc::{AllocError, Global};
use term_meaning::{Binding, Completion};
use typed_program::{Local, Program, Site};
use value_rules::default_of;

// ---- what a callback begins with

/// The event that a completion binds to the name with a place.
fn event_of(bindings: &[Binding], name: usize) -> Option<&Value>
    ensures { option_copied result ≡ event_of name bindings.now }
{
    for binding in bindings {
        if binding.local as usize == name {
            return Some(&binding.event);
        }
    }
    None
}

/// The value of the bound name with a place.
fn bound_value(
    alloc: Global,
    types: &EventShapes,
    completion: &[Binding],
    place: usize,
    local: &Local,
) -> Result<Value, AllocError>
    ensures { IfOk result (λ v. v ≡ bound_value types.now completion.now place local.now) }
{
    match event_of(completion, place) {
        None => default_of(alloc, &local.shape, types),
        Some(event) => copy(alloc, event),
    }
}

fn copies(alloc: Global, values: &[Value]) -> Result<Values, AllocError>
    ensures { IfOk result (λ vs. vs ≡ values.now) }
{
    let mut made = List::new(alloc);
    for value in values {
        made.push(copy(alloc, value)?)?;
    }
    Ok(made)
}

/// Adds the values of bound names.
fn push_bound(
    alloc: Global,
    types: &EventShapes,
    completion: &[Binding],
    bound: &[Local],
    locals: &mut Values,
) -> Result<(), AllocError>
    ensures { OnOk result (locals.new ≡ locals.old ++ bound_from types.now completion.now 0 bound.now) }
{
    for (place, local) in bound.iter().enumerate() {
        let value = bound_value(alloc, types, completion, place, local)?;
        locals.push(value)?;
    }
    Ok(())
}

fn callback_locals(
    alloc: Global,
    types: &EventShapes,
    site: &Site,
    captured: &Values,
    completion: &Completion,
) -> Result<Values, AllocError>
    ensures { IfOk result (λ vs. vs ≡ callback_locals types.now site.now captured.now completion.now) }
{
    let mut locals = copies(alloc, captured.as_slice())?;
    push_bound(
        alloc,
        types,
        completion.as_slice(),
        site.bound.as_slice(),
        &mut locals,
    )?;
    Ok(locals)
}

// ---- callbacks

/// A listener whose callback is to run: its birth, the number of its instance, that of its site, and what its callback takes along.
#[derive(Drop)]
pub struct Called {
    pub birth: u64,
    pub instance: u64,
    pub site: u16,
    pub captured: Values,
}

/// The live listener of a birth, as one whose callback is to run.
pub fn called_of(
    alloc: Global,
    context: &LiveContext,
    birth: u64,
) -> Result<Option<Called>, AllocError>
    ensures { IfOk result (λ called. called ≡ called_in (listener_of birth context.now)) }
{
    match context.listener(birth) {
        None => Ok(None),
        Some(listener) => {
            let captured = copies(alloc, listener.captured().as_slice())?;
            Ok(Some(Called {
                birth: listener.birth(),
                instance: listener.instance(),
                site: listener.site(),
                captured,
            }))
        }
    }
}

/// Whether the listener of a birth is live.
pub fn is_live(context: &LiveContext, birth: u64) -> bool
    ensures { result ≡ is_live (listener_of birth context.now) }
{
    match context.listener(birth) {
        None => false,
        Some(_listener) => true,
    }
}

/// The number of the body of a site, behind the actions; the limits of a program keep it in 16 bits.
fn body_number(program: &Program, site: u16) -> Result<u16, AllocError>
    ensures { IfOk result (λ n. n ≡ body_number program.now site) }
{
    let number = program.actions.len() + site as usize;
    match u16::try_from(number) {
        Ok(number) => Ok(number),
        Err(_) => Err(AllocError),
    }
}

/// A charge; where there is less fuel, the context is spent.
pub fn charge(context: &mut LiveContext, amount: u64) -> bool
    requires { InRange context.old }
    ensures after { context.new ≡ paid amount context.old }
    ensures answer { result ≡ nat_le amount context.old.fuel }
    ensures small { InRange context.new }
{
    context.pay(amount)
}

/// The callback of a listener runs with a completion.
fn call<R: BodyRunner>(
    around: &Around<'_, R>,
    context: &mut LiveContext,
    called: &Called,
    site: &Site,
    completion: &Completion,
) -> Result<(), AllocError>
    requires serves { R.serves around.now.runner.now around.now.program.now }
    requires typed { Typed around.now.program.now }
    requires keeps { Keeps around.now.program.now }
    requires fits { ContextFits around.now.program.now context.old }
    requires caller { CallerFits around.now.program.now (listener_in called.now) site.now context.old }
    requires bound { CompletionFits around.now.program.now.types site.now.bound completion.now }
    requires fuel { InRange context.old }
    ensures means { OnOk result (context.new ≡ called_with around.now.program.now (listener_in called.now) site.now completion.now context.old) }
    ensures small { OnOk result (InRange context.new) }
{
    let body = body_number(around.program, called.site)?;
    let locals = callback_locals(
        around.alloc,
        &around.program.types,
        site,
        &called.captured,
        completion,
    )?;
    run(around, context, called.instance, body, locals)
}

/// The same, while the listener is live.
fn call_live<R: BodyRunner>(
    around: &Around<'_, R>,
    context: &mut LiveContext,
    called: &Called,
    site: &Site,
    completion: &Completion,
) -> Result<(), AllocError>
    requires serves { R.serves around.now.runner.now around.now.program.now }
    requires typed { Typed around.now.program.now }
    requires keeps { Keeps around.now.program.now }
    requires fits { ContextFits around.now.program.now context.old }
    requires caller { CallerFits around.now.program.now (listener_in called.now) site.now context.old }
    requires bound { CompletionFits around.now.program.now.types site.now.bound completion.now }
    requires fuel { InRange context.old }
    ensures means { OnOk result (context.new ≡ called_live around.now.program.now (listener_in called.now) site.now completion.now context.old) }
    ensures small { OnOk result (InRange context.new) }
{
    if !is_live(context, called.birth) {
        return Ok(());
    }
    call(around, context, called, site, completion)
}

/// The same, while the context isn't spent.
fn call_unless_spent<R: BodyRunner>(
    around: &Around<'_, R>,
    context: &mut LiveContext,
    called: &Called,
    site: &Site,
    completion: &Completion,
) -> Result<(), AllocError>
    requires serves { R.serves around.now.runner.now around.now.program.now }
    requires typed { Typed around.now.program.now }
    requires keeps { Keeps around.now.program.now }
    requires fits { ContextFits around.now.program.now context.old }
    requires caller { CallerFits around.now.program.now (listener_in called.now) site.now context.old }
    requires bound { CompletionFits around.now.program.now.types site.now.bound completion.now }
    requires fuel { InRange context.old }
    ensures means { OnOk result (context.new ≡ unless_spent (called_live around.now.program.now (listener_in called.now) site.now completion.now) context.old) }
    ensures small { OnOk result (InRange context.new) }
{
    if context.is_spent() {
        return Ok(());
    }
    call_live(around, context, called, site, completion)
}

/// The callback of a listener runs once for each completion, in order.
pub fn call_all<R: BodyRunner>(
    around: &Around<'_, R>,
    context: &mut LiveContext,
    called: &Called,
    site: &Site,
    completions: &[Completion],
) -> Result<(), AllocError>
    requires serves { R.serves around.now.runner.now around.now.program.now }
    requires typed { Typed around.now.program.now }
    requires keeps { Keeps around.now.program.now }
    requires fits { ContextFits around.now.program.now context.old }
    requires caller { CallerFits around.now.program.now (listener_in called.now) site.now context.old }
    requires bound { CompletionsFit around.now.program.now.types site.now.bound completions.now }
    requires fuel { InRange context.old }
    ensures means { OnOk result (context.new ≡ called_all around.now.program.now (listener_in called.now) site.now completions.now context.old) }
    ensures fits { OnOk result (ContextFits around.now.program.now context.new) }
    ensures small { OnOk result (InRange context.new) }
{
    'completions: for completion in completions {
        call_unless_spent(around, context, called, site, completion)?;
    }
    Ok(())
}
