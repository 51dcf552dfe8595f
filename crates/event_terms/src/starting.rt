ghost use Rattle.std.specs.Prelude.{◌≡◌, ◌+◌, IfOk, None};
ghost use Rattle.std.specs.Option.{option_map};
ghost use Rattle.term_meaning.specs.declared.progress.Progress.TheVariants as progress;
ghost use Rattle.term_meaning.specs.Operands.{time_after};
ghost use Rattle.term_meaning.specs.Start.{begun, leaf_of, sides_of, start_of};
ghost use Rattle.event_terms.specs.Parts.{form_pattern, pattern_in};
ghost use Rattle.event_terms.specs.Settings.{setting};

use crate::parts::form;
use crate::shown::{Form, Part};
use epl_values::List;
use std::alloc::AllocError;
use term_meaning::{Binding, Held, Leaf, Progress, Sides, Started};
use term_operands::Origin;
use typed_program::{Duration, TemplateShape};

/// The number behind another one.
fn following(number: u64) -> Result<u64, AllocError>
    ensures { IfOk result (λ n. n ≡ number + 1) }
{
    match number.checked_add(1) {
        Some(next) => Ok(next),
        None => Err(AllocError),
    }
}

pub fn sides_of(left: Held<Progress>, right: Held<Progress>) -> Sides
    ensures { result ≡ sides_of left right }
{
    Sides { left, right }
}

fn begun(origin: &Origin<'_>, progress: Progress, next: u64) -> Result<Started, AllocError>
    ensures { IfOk result (λ a. a ≡ begun progress next) }
{
    Ok(Started {
        progress: Held::new(origin.alloc, progress)?,
        next,
    })
}

fn deadline(origin: &Origin<'_>, within: Option<Duration>) -> Option<i128>
    ensures { result ≡ option_map (time_after (setting origin.entry.now)) within }
{
    match within {
        None => None,
        Some(duration) => Some(origin.time_after(duration)),
    }
}

fn template(
    origin: &Origin<'_>,
    template: &TemplateShape,
    seen: &[Binding],
    next: u64,
) -> Result<Started, AllocError>
    ensures { IfOk result (λ a. a ≡ begun (progress.Template (leaf_of (setting origin.entry.now) template.now seen.now next)) (next + 1)) }
{
    let leaf = Leaf {
        number: next,
        spans: origin.spans(seen, template)?,
        event: template.event,
        mode: template.mode,
        until: deadline(origin, template.within),
    };
    let after = following(next)?;
    begun(origin, Progress::Template(leaf), after)
}

fn wait(origin: &Origin<'_>, duration: Duration, next: u64) -> Result<Started, AllocError>
    ensures { IfOk result (λ a. a ≡ begun (progress.Wait next (time_after (setting origin.entry.now) duration)) (next + 1)) }
{
    let after = following(next)?;
    begun(
        origin,
        Progress::Wait(next, origin.time_after(duration)),
        after,
    )
}

/// An event expression as it begins.
#[cycle(starting)]
#[tactic(auto, unfolding(term_meaning::specs::Start::start_of))]
pub fn start(
    origin: &Origin<'_>,
    whole: Form<'_>,
    seen: &[Binding],
    next: u64,
) -> Result<Started, AllocError>
    ensures { IfOk result (λ a. a ≡ start_of (setting origin.entry.now) (form_pattern whole.entry) seen.now next) }
{
    match whole {
        Form::Template(shape) => template(origin, shape, seen, next),
        Form::Wait(duration) => wait(origin, duration, next),
        Form::All(x) => {
            let a = start_part(origin, x, seen, next)?;
            begun(origin, Progress::All(a.progress), a.next)
        }
        Form::Followed(x, _) => {
            let a = start_part(origin, x, seen, next)?;
            begun(
                origin,
                Progress::Followed(a.progress, List::new(origin.alloc)),
                a.next,
            )
        }
        Form::And(x, y) => {
            let a = start_part(origin, x, seen, next)?;
            let b = start_part(origin, y, seen, a.next)?;
            begun(
                origin,
                Progress::And(sides_of(a.progress, b.progress), None, None),
                b.next,
            )
        }
        Form::AndNot(x, y) => {
            let a = start_part(origin, x, seen, next)?;
            let b = start_part(origin, y, seen, a.next)?;
            begun(
                origin,
                Progress::AndNot(sides_of(a.progress, b.progress)),
                b.next,
            )
        }
        Form::NotAnd(x, y) => {
            let a = start_part(origin, x, seen, next)?;
            let b = start_part(origin, y, seen, a.next)?;
            begun(
                origin,
                Progress::NotAnd(sides_of(a.progress, b.progress)),
                b.next,
            )
        }
        Form::Or(x, y) => {
            let a = start_part(origin, x, seen, next)?;
            let b = start_part(origin, y, seen, a.next)?;
            begun(
                origin,
                Progress::Or(sides_of(a.progress, b.progress)),
                b.next,
            )
        }
        Form::Xor(x, y) => {
            let a = start_part(origin, x, seen, next)?;
            let b = start_part(origin, y, seen, a.next)?;
            begun(
                origin,
                Progress::Xor(sides_of(a.progress, b.progress)),
                b.next,
            )
        }
        Form::Within(x, duration) => {
            let inner = following(next)?;
            let a = start_part(origin, x, seen, inner)?;
            let until = origin.time_after(duration);
            begun(origin, Progress::Within(next, until, a.progress), a.next)
        }
    }
}

/// A part of an event expression as it begins.
#[cycle(starting)]
fn start_part(
    origin: &Origin<'_>,
    part: Part<'_>,
    seen: &[Binding],
    next: u64,
) -> Result<Started, AllocError>
    ensures { IfOk result (λ a. a ≡ start_of (setting origin.entry.now) (pattern_in part.entry) seen.now next) }
{
    start(origin, form(part), seen, next)
}
