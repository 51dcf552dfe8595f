ghost use Rattle.std.specs.Prelude.{◌≡◌, ◌<◌, ◌≤ℤ◌, ◌-◌, ◌^◌, pos, length, slice_get, Some, MatchOption, None, not, filter, map, IfOk, OnOk};
ghost use Rattle.std.specs.Option.{option_copied, option_map};
ghost use Rattle.std.specs.List.{All, find, list_any};
ghost use Rattle.typed_program.specs.Typed.{Typed};
ghost use Rattle.term_shapes.specs.Kept.{HeardFits};
ghost use Rattle.context_meaning.specs.Contexts.{is_its, is_born};
ghost use Rattle.context_meaning.specs.Listeners.{Listener};
ghost use Rattle.live_context.specs.Order.{Ascend, below, birth_of, owner_of};
ghost use Rattle.live_context.specs.Places.{BornAt};
ghost use Rattle.live_context.specs.Steps.{AreSame, HasSite, StepsAmong, StepsPlace};

use crate::listener::{LiveListener, step_one};
use event_terms::StepOut;
use std::alloc::{AllocError, Global};
use term_meaning::Stimulus;
use typed_program::Program;

fn count_born(listeners: &[LiveListener], birth: u64) -> usize
    requires { Ascend birth_of 0 listeners.now }
    ensures { result ≡ below birth_of birth listeners.now }
{
    listeners.partition_point(|listener| listener.birth() < birth)
}

fn listener_at(listeners: &[LiveListener], at: usize) -> Option<&LiveListener>
    ensures { option_copied result ≡ slice_get listeners.now at }
{
    listeners.get(at)
}

/// The listener of a birth.
pub fn born(birth: u64, listeners: &[LiveListener]) -> Option<&LiveListener>
    requires { Ascend birth_of 0 listeners.now }
    ensures { option_copied result ≡ find (is_born birth) listeners.now }
{
    match listener_at(listeners, count_born(listeners, birth)) {
        None => None,
        Some(listener) => {
            if listener.birth() == birth {
                Some(listener)
            } else {
                None
            }
        }
    }
}

/// The place of the listener of a birth.
fn birth_place(listeners: &[LiveListener], birth: u64) -> Option<usize>
    requires { Ascend birth_of 0 listeners.now }
    ensures { MatchOption result (find (is_born birth) listeners.now ≡ None) (BornAt birth listeners.now) }
{
    let at = count_born(listeners, birth);
    match listener_at(listeners, at) {
        None => None,
        Some(listener) => {
            if listener.birth() == birth {
                Some(at)
            } else {
                None
            }
        }
    }
}

/// The listener of a birth ends, where it lives; its instance.
pub fn without_born(birth: u64, listeners: &mut Vec<LiveListener>) -> Option<u64>
    requires { Ascend birth_of 0 listeners.old.items }
    ensures answer { result ≡ option_map owner_of (find (is_born birth) listeners.old.items) }
    ensures after { listeners.new.items ≡ filter (λ l. not (is_born birth l)) listeners.old.items }
{
    match birth_place(listeners.as_slice(), birth) {
        None => None,
        Some(at) => {
            let gone = listeners.remove(at);
            Some(gone.instance())
        }
    }
}

/// The listeners of an instance end.
pub fn without_its(instance: u64, listeners: &mut Vec<LiveListener>)
    ensures { listeners.new.items ≡ filter (λ l. not (is_its instance l)) listeners.old.items }
{
    listeners.retain(|listener| listener.instance() != instance);
}

/// Whether an instance has a listener.
pub fn busy(instance: u64, listeners: &[LiveListener]) -> bool
    ensures { result ≡ list_any (is_its instance) listeners.now }
{
    listeners
        .iter()
        .any(|listener| listener.instance() == instance)
}

/// The births of listeners, in a list whose memory is used again.
pub fn births_of(births: &mut Vec<u64>, listeners: &[LiveListener]) -> Result<(), AllocError>
    ensures { OnOk result (births.new.items ≡ map (λ l. l.birth) listeners.now) }
{
    births.clear();
    for listener in listeners {
        births.push(listener.birth())?;
    }
    Ok(())
}

/// The listener at a place is stepped. After want of memory nothing is said of its event expression.
fn step_at(
    alloc: Global,
    program: &Program,
    listeners: &mut Vec<LiveListener>,
    at: usize,
    stimulus: &Stimulus,
    now: i128,
) -> Result<StepOut, AllocError>
    requires typed { Typed program.now }
    requires within { at < length listeners.old.items }
    requires sites { All (HasSite program.now) listeners.old.items }
    requires heard { HeardFits program.now.types stimulus.now }
    requires from { pos 0 ≤ℤ now }
    requires to { now ≤ℤ pos (10 ^ 13 - 1) }
    ensures steps { IfOk result (λ told. (l : Listener) → slice_get listeners.old.items at ≡ Some l → StepsPlace program.now stimulus.now now at listeners.old.items l told listeners.new.items) }
    ensures same { AreSame listeners.old.items listeners.new.items }
{
    step_one(alloc, program, &mut listeners[at], stimulus, now)
}

/// The listener of a birth is stepped, where it lives. After want of memory nothing is said of its event expression.
pub fn step_born(
    alloc: Global,
    program: &Program,
    listeners: &mut Vec<LiveListener>,
    birth: u64,
    stimulus: &Stimulus,
    now: i128,
) -> Result<Option<StepOut>, AllocError>
    requires typed { Typed program.now }
    requires order { Ascend birth_of 0 listeners.old.items }
    requires sites { All (HasSite program.now) listeners.old.items }
    requires heard { HeardFits program.now.types stimulus.now }
    requires from { pos 0 ≤ℤ now }
    requires to { now ≤ℤ pos (10 ^ 13 - 1) }
    ensures steps { IfOk result (λ told. StepsAmong program.now stimulus.now now birth listeners.old.items told listeners.new.items) }
    ensures same { AreSame listeners.old.items listeners.new.items }
{
    match birth_place(listeners.as_slice(), birth) {
        None => Ok(None),
        Some(at) => {
            let told = step_at(alloc, program, listeners, at, stimulus, now)?;
            Ok(Some(told))
        }
    }
}
