ghost use Rattle.std.specs.Prelude.{◌≡◌, ◌<◌, length, map, IfOk};
ghost use Rattle.term_meaning.specs.Start.{start_of};
ghost use Rattle.term_meaning.specs.Step.{all_form, all_step, and_form, and_not_form, both_sides, followed_form, none_ran, not_and_form, or_form, run_copies, step_copy, step_of, step_sides, within_form, xor_form};
ghost use Rattle.event_terms.specs.Parts.{form_pattern};
ghost use Rattle.event_terms.specs.Settings.{setting_at};
ghost use Rattle.event_terms.specs.Runs.{fresh_ran, ran_at};

use crate::followed::{behind, growing};
use crate::forms::{
    all_again, all_on, and, and_not, is_gone, not_and, or, still, template, wait, within, xor,
};
use crate::moment::Moment;
use crate::parts::{binds_of, first_of, second_of};
use crate::shown::Form;
use crate::starting::start;
use epl_values::List;
use std::alloc::{AllocError, Global};
use term_meaning::{
    Binding, Both, Completion, Held, Progress, Ran, Running, RunningCopies, Sides, Stepped,
};
use term_operands::is_due;

/// `all X`, where X was stepped to this.
fn all_stepped(
    held: Held<Progress>,
    moment: &Moment<'_, '_>,
    a: Stepped,
    part: Form<'_>,
    seen: &[Binding],
) -> Result<Stepped, AllocError>
    ensures { IfOk result (λ r. r ≡ all_step a (start_of (setting_at moment.entry.now) (form_pattern part.entry) seen.now a.next)) }
{
    if is_gone(&a.left) {
        let again = start(&moment.origin, part, seen, a.next)?;
        return Ok(all_again(a, again));
    }
    Ok(all_on(held, a))
}

fn none_ran(alloc: Global, copies: RunningCopies, next: u64) -> Ran
    ensures { result ≡ fresh_ran copies next }
{
    Ran {
        completions: List::new(alloc),
        copies,
        next,
        fitted: false,
    }
}

/// A copy goes back to its place, and what it gave stands behind what those before it gave.
fn ran_on(
    alloc: Global,
    seen: &[Binding],
    ran: Ran,
    at: usize,
    bindings: Completion,
    a: Stepped,
) -> Result<Ran, AllocError>
    requires { at < length ran.copies }
    ensures { IfOk result (λ r. r ≡ ran_at seen.now ran at bindings a) }
{
    let Ran {
        completions: front,
        copies: before,
        next: _,
        fitted: fitted_before,
    } = ran;
    let Stepped {
        completions,
        left,
        next,
        fitted,
    } = a;
    let all = behind(
        alloc,
        front,
        seen,
        bindings.as_slice(),
        completions.as_slice(),
    )?;
    let mut copies = before;
    copies.set(
        at,
        Running {
            bindings,
            progress: left,
        },
    );
    Ok(Ran {
        completions: all,
        copies,
        next,
        fitted: fitted_before || fitted,
    })
}

/// Moves an event expression.
#[cycle(stepping)]
#[tactic(auto, using(crate::proofs::Steps::stepping), unfolding(term_meaning::specs::Step::followed_form))]
pub fn step(
    progress: Progress,
    moment: &Moment<'_, '_>,
    whole: Form<'_>,
    seen: &[Binding],
    next: u64,
) -> Result<Stepped, AllocError>
    ensures { IfOk result (λ a. a ≡ step_of (setting_at moment.entry.now) moment.entry.now.stimulus.now progress (form_pattern whole.entry) seen.now next) }
{
    let alloc = moment.origin.alloc;
    match progress {
        Progress::Gone => Ok(still(alloc, Progress::Gone, next)),
        Progress::Template(leaf) => {
            template(alloc, moment.stimulus, leaf, binds_of(whole), next)
        }
        Progress::Wait(number, due) => wait(alloc, moment.stimulus, number, due, next),
        Progress::All(x) => step_all(x, moment, whole, seen, next),
        Progress::Followed(held, copies) => {
            let ran = run(copies, moment, second_of(whole), seen, next)?;
            let mut x = held;
            let a = step(
                x.put(Progress::Gone),
                moment,
                first_of(whole),
                seen,
                ran.next,
            )?;
            growing(&moment.origin, x, ran, a, whole, seen)
        }
        Progress::And(sides, l, r) => step_and(sides, l, r, moment, whole, seen, next),
        Progress::AndNot(sides) => step_and_not(sides, moment, whole, seen, next),
        Progress::NotAnd(sides) => step_not_and(sides, moment, whole, seen, next),
        Progress::Or(sides) => step_or(sides, moment, whole, seen, next),
        Progress::Xor(sides) => step_xor(sides, moment, whole, seen, next),
        Progress::Within(number, until, x) => {
            step_within(x, number, until, moment, whole, seen, next)
        }
    }
}

#[cycle(stepping)]
#[tactic(auto, unfolding(term_meaning::specs::Step::all_form))]
fn step_all(
    held: Held<Progress>,
    moment: &Moment<'_, '_>,
    whole: Form<'_>,
    seen: &[Binding],
    next: u64,
) -> Result<Stepped, AllocError>
    ensures { IfOk result (λ r. r ≡ all_form (setting_at moment.entry.now) (step_of (setting_at moment.entry.now) moment.entry.now.stimulus.now held) (form_pattern whole.entry) seen.now next) }
{
    let mut held = held;
    let part = first_of(whole);
    let a = step(held.put(Progress::Gone), moment, part, seen, next)?;
    all_stepped(held, moment, a, part, seen)
}

#[cycle(stepping)]
#[tactic(auto, unfolding(term_meaning::specs::Step::within_form))]
fn step_within(
    held: Held<Progress>,
    number: u64,
    until: i128,
    moment: &Moment<'_, '_>,
    whole: Form<'_>,
    seen: &[Binding],
    next: u64,
) -> Result<Stepped, AllocError>
    ensures { IfOk result (λ r. r ≡ within_form moment.entry.now.stimulus.now number until (step_of (setting_at moment.entry.now) moment.entry.now.stimulus.now held) (form_pattern whole.entry) seen.now next) }
{
    if is_due(moment.stimulus, until) {
        return Ok(still(moment.origin.alloc, Progress::Gone, next));
    }
    let mut held = held;
    let a = step(
        held.put(Progress::Gone),
        moment,
        first_of(whole),
        seen,
        next,
    )?;
    Ok(within(held, number, until, a))
}

/// The running copies, one after another, each at its place.
#[cycle(stepping)]
fn run(
    copies: RunningCopies,
    moment: &Moment<'_, '_>,
    part: Form<'_>,
    seen: &[Binding],
    next: u64,
) -> Result<Ran, AllocError>
    ensures { IfOk result (λ r. r ≡ run_copies (form_pattern part.entry) seen.now (none_ran next) (map (step_copy (setting_at moment.entry.now) moment.entry.now.stimulus.now) copies)) }
{
    let alloc = moment.origin.alloc;
    let count = copies.len();
    let mut ran = none_ran(alloc, copies, next);
    'copies: for at in 0..count {
        let emptied = Running {
            bindings: List::new(alloc),
            progress: Progress::Gone,
        };
        let Running { bindings, progress } = ran.copies.set(at, emptied);
        let a = step(progress, moment, part, bindings.as_slice(), ran.next)?;
        ran = ran_on(alloc, seen, ran, at, bindings, a)?;
    }
    Ok(ran)
}

/// Both sides are stepped; their emptied boxes come back.
#[cycle(stepping)]
#[tactic(auto, unfolding(term_meaning::specs::Step::both_sides), using(crate::proofs::Steps::step_left, crate::proofs::Steps::step_right))]
fn both(
    sides: Sides,
    moment: &Moment<'_, '_>,
    whole: Form<'_>,
    seen: &[Binding],
    next: u64,
) -> Result<(Sides, Both), AllocError>
    ensures { IfOk result (λ r. r.1 ≡ both_sides (step_sides (setting_at moment.entry.now) moment.entry.now.stimulus.now sides) (form_pattern whole.entry) seen.now next) }
{
    let Sides {
        left: mut x,
        right: mut y,
    } = sides;
    let a = step(x.put(Progress::Gone), moment, first_of(whole), seen, next)?;
    let b = step(
        y.put(Progress::Gone),
        moment,
        second_of(whole),
        seen,
        a.next,
    )?;
    Ok((Sides { left: x, right: y }, Both { left: a, right: b }))
}

#[cycle(stepping)]
#[tactic(auto, unfolding(term_meaning::specs::Step::and_form))]
fn step_and(
    sides: Sides,
    left: Option<Completion>,
    right: Option<Completion>,
    moment: &Moment<'_, '_>,
    whole: Form<'_>,
    seen: &[Binding],
    next: u64,
) -> Result<Stepped, AllocError>
    ensures { IfOk result (λ a. a ≡ and_form (step_sides (setting_at moment.entry.now) moment.entry.now.stimulus.now sides) left right (form_pattern whole.entry) seen.now next) }
{
    let (held, parts) = both(sides, moment, whole, seen, next)?;
    let Both { left: a, right: b } = parts;
    and(moment.origin.alloc, held, a, b, left, right)
}

#[cycle(stepping)]
#[tactic(auto, unfolding(term_meaning::specs::Step::and_not_form))]
fn step_and_not(
    sides: Sides,
    moment: &Moment<'_, '_>,
    whole: Form<'_>,
    seen: &[Binding],
    next: u64,
) -> Result<Stepped, AllocError>
    ensures { IfOk result (λ a. a ≡ and_not_form (step_sides (setting_at moment.entry.now) moment.entry.now.stimulus.now sides) (form_pattern whole.entry) seen.now next) }
{
    let (held, parts) = both(sides, moment, whole, seen, next)?;
    let Both { left: a, right: b } = parts;
    Ok(and_not(moment.origin.alloc, held, a, b))
}

#[cycle(stepping)]
#[tactic(auto, unfolding(term_meaning::specs::Step::not_and_form))]
fn step_not_and(
    sides: Sides,
    moment: &Moment<'_, '_>,
    whole: Form<'_>,
    seen: &[Binding],
    next: u64,
) -> Result<Stepped, AllocError>
    ensures { IfOk result (λ a. a ≡ not_and_form (step_sides (setting_at moment.entry.now) moment.entry.now.stimulus.now sides) (form_pattern whole.entry) seen.now next) }
{
    let (held, parts) = both(sides, moment, whole, seen, next)?;
    let Both { left: a, right: b } = parts;
    Ok(not_and(moment.origin.alloc, held, a, b))
}

#[cycle(stepping)]
#[tactic(auto, unfolding(term_meaning::specs::Step::or_form))]
fn step_or(
    sides: Sides,
    moment: &Moment<'_, '_>,
    whole: Form<'_>,
    seen: &[Binding],
    next: u64,
) -> Result<Stepped, AllocError>
    ensures { IfOk result (λ a. a ≡ or_form (step_sides (setting_at moment.entry.now) moment.entry.now.stimulus.now sides) (form_pattern whole.entry) seen.now next) }
{
    let (held, parts) = both(sides, moment, whole, seen, next)?;
    let Both { left: a, right: b } = parts;
    Ok(or(held, a, b))
}

#[cycle(stepping)]
#[tactic(auto, unfolding(term_meaning::specs::Step::xor_form))]
fn step_xor(
    sides: Sides,
    moment: &Moment<'_, '_>,
    whole: Form<'_>,
    seen: &[Binding],
    next: u64,
) -> Result<Stepped, AllocError>
    ensures { IfOk result (λ a. a ≡ xor_form (step_sides (setting_at moment.entry.now) moment.entry.now.stimulus.now sides) (form_pattern whole.entry) seen.now next) }
{
    let (held, parts) = both(sides, moment, whole, seen, next)?;
    let Both { left: a, right: b } = parts;
    Ok(xor(moment.origin.alloc, held, a, b))
}
