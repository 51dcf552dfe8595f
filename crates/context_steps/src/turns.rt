ghost use Rattle.std.specs.Prelude.{◌≡◌, false, Some, slice_get, IfOk, OnOk};
ghost use Rattle.std.specs.Option.{option_copied};
ghost use Rattle.typed_program.specs.Typed.{Typed};
ghost use Rattle.term_shapes.specs.Kept.{CompletionsFit, HeardFits};
ghost use Rattle.context_meaning.specs.Contexts.{behind_charge, listener_of};
ghost use Rattle.context_meaning.specs.Fits.{ContextFits};
ghost use Rattle.context_meaning.specs.Handling.{one_turn};
ghost use Rattle.context_meaning.specs.Turns.{stepped, stepped_born, turn, turned};
ghost use Rattle.context_steps.specs.Calls.{AtListener, gone_from, left, listener_in, taken, turned_to};
ghost use Rattle.context_steps.specs.Steps.{CallerFits, InRange, Keeps};

use crate::around::Around;
use crate::callbacks::{Called, call_all, called_of, charge, is_live};
use crate::ends::end_where_idle;
use body_runs::BodyRunner;
use live_context::{LiveContext, StepOut};
use std::alloc::AllocError;
use term_meaning::{Completions, Stimulus};
use typed_program::{Program, Site};

// ---- a listener

/// While the listener of a birth is live it goes, and an instance without a live listener ends.
fn leave<R: BodyRunner>(
    around: &Around<'_, R>,
    context: &mut LiveContext,
    birth: u64,
    instance: u64,
) -> Result<(), AllocError>
    requires serves { R.serves around.now.runner.now around.now.program.now }
    requires typed { Typed around.now.program.now }
    requires keeps { Keeps around.now.program.now }
    requires fits { ContextFits around.now.program.now context.old }
    requires fuel { InRange context.old }
    ensures means { OnOk result (context.new ≡ gone_from around.now.program.now birth instance context.old) }
    ensures small { OnOk result (InRange context.new) }
{
    if !is_live(context, birth) {
        return Ok(());
    }
    context.quit(birth);
    end_where_idle(around, context, instance)
}

/// A listener with nothing left goes, unless the context is spent.
fn leave_if<R: BodyRunner>(
    around: &Around<'_, R>,
    context: &mut LiveContext,
    called: &Called,
    ended: bool,
) -> Result<(), AllocError>
    requires serves { R.serves around.now.runner.now around.now.program.now }
    requires typed { Typed around.now.program.now }
    requires keeps { Keeps around.now.program.now }
    requires fits { ContextFits around.now.program.now context.old }
    requires fuel { InRange context.old }
    ensures means { OnOk result (context.new ≡ left around.now.program.now (listener_in called.now) ended context.old) }
    ensures small { OnOk result (InRange context.new) }
{
    if !ended {
        return Ok(());
    }
    if context.is_spent() {
        return Ok(());
    }
    leave(around, context, called.birth, called.instance)
}

fn site_at(program: &Program, number: u16) -> Option<&Site>
    ensures { option_copied result ≡ slice_get program.now.sites number }
{
    program.sites.as_slice().get(number as usize)
}

/// The callback of a listener of a site runs for each completion, and a listener with nothing left goes.
fn finish<R: BodyRunner>(
    around: &Around<'_, R>,
    context: &mut LiveContext,
    called: &Called,
    site: &Site,
    completions: &Completions,
    ended: bool,
) -> Result<(), AllocError>
    requires serves { R.serves around.now.runner.now around.now.program.now }
    requires typed { Typed around.now.program.now }
    requires keeps { Keeps around.now.program.now }
    requires fits { ContextFits around.now.program.now context.old }
    requires caller { CallerFits around.now.program.now (listener_in called.now) site.now context.old }
    requires bound { CompletionsFit around.now.program.now.types site.now.bound completions.now }
    requires fuel { InRange context.old }
    ensures means { OnOk result (context.new ≡ taken around.now.program.now (listener_in called.now) site.now completions.now ended context.old) }
    ensures small { OnOk result (InRange context.new) }
{
    call_all(around, context, called, site, completions.as_slice())?;
    leave_if(around, context, called, ended)
}

/// The same of the listener of a birth, where it is live.
fn finish_at<R: BodyRunner>(
    around: &Around<'_, R>,
    context: &mut LiveContext,
    birth: u64,
    completions: &Completions,
    ended: bool,
) -> Result<(), AllocError>
    requires serves { R.serves around.now.runner.now around.now.program.now }
    requires typed { Typed around.now.program.now }
    requires keeps { Keeps around.now.program.now }
    requires fits { ContextFits around.now.program.now context.old }
    requires bound { AtListener around.now.program.now birth context.old (λ l site. CompletionsFit around.now.program.now.types site.bound completions.now) }
    requires fuel { InRange context.old }
    ensures means { OnOk result (AtListener around.now.program.now birth context.old (λ l site. context.new ≡ taken around.now.program.now l site completions.now ended context.old)) }
    ensures small { OnOk result (InRange context.new) }
{
    let Some(called) = called_of(around.alloc, context, birth)? else {
        return Ok(());
    };
    match site_at(around.program, called.site) {
        None => Ok(()),
        Some(site) => finish(around, context, &called, site, completions, ended),
    }
}

/// What the step of a listener comes to: the leaves that begin are charged, and then its callback runs.
fn take<R: BodyRunner>(
    around: &Around<'_, R>,
    context: &mut LiveContext,
    birth: u64,
    out: StepOut,
) -> Result<(), AllocError>
    requires serves { R.serves around.now.runner.now around.now.program.now }
    requires typed { Typed around.now.program.now }
    requires keeps { Keeps around.now.program.now }
    requires fits { ContextFits around.now.program.now context.old }
    requires bound { AtListener around.now.program.now birth context.old (λ l site. CompletionsFit around.now.program.now.types site.bound out.completions) }
    requires fuel { InRange context.old }
    ensures means { OnOk result (AtListener around.now.program.now birth context.old (λ l site. context.new ≡ behind_charge out.begun (taken around.now.program.now l site out.completions out.ended) context.old)) }
    ensures small { OnOk result (InRange context.new) }
{
    let StepOut {
        completions,
        ended,
        begun,
        ..
    } = out;
    if !charge(context, begun) {
        return Ok(());
    }
    if completions.len() == 0 && !ended {
        return Ok(());
    }
    finish_at(around, context, birth, &completions, ended)
}

// ---- turns

/// The listener of a birth is stepped, where it is live; whether an ordinary template has fitted now, where one had or had not.
fn step<R: BodyRunner>(
    around: &Around<'_, R>,
    context: &mut LiveContext,
    stimulus: &Stimulus,
    birth: u64,
    fitted: bool,
) -> Result<bool, AllocError>
    requires serves { R.serves around.now.runner.now around.now.program.now }
    requires typed { Typed around.now.program.now }
    requires keeps { Keeps around.now.program.now }
    requires fits { ContextFits around.now.program.now context.old }
    requires heard { HeardFits around.now.program.now.types stimulus.now }
    requires fuel { InRange context.old }
    ensures means { IfOk result (λ now. turned_to context.new now ≡ stepped around.now.program.now stimulus.now (listener_of birth context.old) (turned_to context.old fitted)) }
    ensures small { OnOk result (InRange context.new) }
{
    match context.step(around.program, birth, stimulus)? {
        None => Ok(fitted),
        Some(out) => {
            let fits = out.fitted;
            take(around, context, birth, out)?;
            Ok(fitted || fits)
        }
    }
}

/// The same, while the context isn't spent.
fn step_unless_spent<R: BodyRunner>(
    around: &Around<'_, R>,
    context: &mut LiveContext,
    stimulus: &Stimulus,
    birth: u64,
    fitted: bool,
) -> Result<bool, AllocError>
    requires serves { R.serves around.now.runner.now around.now.program.now }
    requires typed { Typed around.now.program.now }
    requires keeps { Keeps around.now.program.now }
    requires fits { ContextFits around.now.program.now context.old }
    requires heard { HeardFits around.now.program.now.types stimulus.now }
    requires fuel { InRange context.old }
    ensures means { IfOk result (λ now. turned_to context.new now ≡ stepped_born around.now.program.now stimulus.now birth (turned_to context.old fitted)) }
    ensures small { OnOk result (InRange context.new) }
{
    if context.is_spent() {
        return Ok(fitted);
    }
    step(around, context, stimulus, birth, fitted)
}

/// The listeners of these births are stepped, each while it is live; whether an ordinary template of one fitted.
fn step_all<R: BodyRunner>(
    around: &Around<'_, R>,
    context: &mut LiveContext,
    stimulus: &Stimulus,
    births: &[u64],
) -> Result<bool, AllocError>
    requires serves { R.serves around.now.runner.now around.now.program.now }
    requires typed { Typed around.now.program.now }
    requires keeps { Keeps around.now.program.now }
    requires fits { ContextFits around.now.program.now context.old }
    requires heard { HeardFits around.now.program.now.types stimulus.now }
    requires fuel { InRange context.old }
    ensures means { IfOk result (λ fitted. turned_to context.new fitted ≡ turn around.now.program.now stimulus.now births.now (turned_to context.old false)) }
    ensures fits { OnOk result (ContextFits around.now.program.now context.new) }
    ensures small { OnOk result (InRange context.new) }
{
    let mut fitted = false;
    'births: for birth in births {
        fitted = step_unless_spent(around, context, stimulus, *birth, fitted)?;
    }
    Ok(fitted)
}

/// A turn: the listeners that live now, in order of birth, each while it is live; whether an ordinary template of one fitted.
pub fn turn<R: BodyRunner>(
    around: &Around<'_, R>,
    context: &mut LiveContext,
    stimulus: &Stimulus,
) -> Result<bool, AllocError>
    requires serves { R.serves around.now.runner.now around.now.program.now }
    requires typed { Typed around.now.program.now }
    requires keeps { Keeps around.now.program.now }
    requires fits { ContextFits around.now.program.now context.old }
    requires heard { HeardFits around.now.program.now.types stimulus.now }
    requires fuel { InRange context.old }
    ensures means { IfOk result (λ fitted. turned_to context.new fitted ≡ turned around.now.program.now stimulus.now context.old) }
    ensures fits { OnOk result (ContextFits around.now.program.now context.new) }
    ensures small { OnOk result (InRange context.new) }
{
    let births = context.births_noted()?;
    let fitted = step_all(around, context, stimulus, births.as_slice())?;
    context.births_done(births);
    Ok(fitted)
}

/// A turn, whatever fitted in it.
pub fn one_turn<R: BodyRunner>(
    around: &Around<'_, R>,
    context: &mut LiveContext,
    stimulus: &Stimulus,
) -> Result<(), AllocError>
    requires serves { R.serves around.now.runner.now around.now.program.now }
    requires typed { Typed around.now.program.now }
    requires keeps { Keeps around.now.program.now }
    requires fits { ContextFits around.now.program.now context.old }
    requires heard { HeardFits around.now.program.now.types stimulus.now }
    requires fuel { InRange context.old }
    ensures means { OnOk result (context.new ≡ one_turn around.now.program.now stimulus.now context.old) }
    ensures small { OnOk result (InRange context.new) }
{
    let _fitted = turn(around, context, stimulus)?;
    Ok(())
}
