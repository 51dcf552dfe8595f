ghost use Rattle.std.specs.Prelude.{◌≡◌, [], ◌∷◌, ◌++◌, ◌<◌, drop, filter, length, slice_get, slice_set, Some, IfOk};
ghost use Rattle.term_meaning.specs.declared.progress.Ran.{Ran as TheRan};
ghost use Rattle.term_meaning.specs.Start.{start_of};
ghost use Rattle.term_meaning.specs.Step.{behind, copy_of, followed_step, grow, grown, growing, is_left, no_copies, those_left};
ghost use Rattle.event_terms.specs.Parts.{form_pattern};
ghost use Rattle.event_terms.specs.Settings.{setting};

use crate::forms::{is_gone, refilled, unless};
use crate::parts::second_of;
use crate::shown::Form;
use crate::starting::start;
use epl_values::List;
use std::alloc::{AllocError, Global};
use term_meaning::{
    Binding, Completion, Completions, Grown, Held, Progress, Ran, Running, RunningCopies, Stepped,
};
use term_operands::{Origin, extend};

/// The bindings behind those of the expressions around.
fn own_part(bindings: &[Binding], outer: usize) -> &[Binding]
    ensures { result.now ≡ drop outer bindings.now }
{
    if outer <= bindings.len() {
        &bindings[outer..]
    } else {
        &bindings[..0]
    }
}

/// Each completion of a copy behind what `->` had bound when the copy was started, all behind others.
pub fn behind(
    alloc: Global,
    front: Completions,
    seen: &[Binding],
    bindings: &[Binding],
    completions: &[Completion],
) -> Result<Completions, AllocError>
    ensures { IfOk result (λ all. all ≡ front ++ behind (drop (length seen.now) bindings.now) completions.now) }
{
    let own = own_part(bindings, seen.len());
    let mut all = front;
    'completions: for completion in completions {
        let whole = extend(alloc, List::new(alloc), own)?;
        all.push(extend(alloc, whole, completion.as_slice())?)?;
    }
    Ok(all)
}

#[tactic(auto, unfolding(term_meaning::specs::Step::is_left))]
fn is_left(copy: &Running) -> bool
    ensures { result ≡ is_left copy.now }
{
    !is_gone(&copy.progress)
}

fn retained(items: Vec<Running>) -> Vec<Running>
    ensures { result.items ≡ filter is_left items.items }
{
    let mut left = items;
    left.retain(|copy| is_left(copy));
    left
}

/// The copies of which something is left.
fn those_left(copies: RunningCopies) -> RunningCopies
    ensures { result ≡ those_left copies }
{
    List::from_vec(retained(copies.into_vec()))
}

/// One more copy of the right side, with all that is bound so far.
fn grown(
    origin: &Origin<'_>,
    part: Form<'_>,
    seen: &[Binding],
    more: Grown,
    completion: &[Binding],
) -> Result<Grown, AllocError>
    ensures { IfOk result (λ g. g ≡ grown (start_of (setting origin.entry.now) (form_pattern part.entry)) seen.now more completion.now) }
{
    let own = extend(origin.alloc, List::new(origin.alloc), seen)?;
    let bindings = extend(origin.alloc, own, completion)?;
    let a = start(origin, part, bindings.as_slice(), more.next)?;
    let Grown {
        copies: before,
        next: _,
    } = more;
    let mut copies = before;
    copies.push(Running {
        bindings,
        progress: a.progress.into_inner(),
    })?;
    Ok(Grown {
        copies,
        next: a.next,
    })
}

/// A copy of the right side for each completion of the left one.
#[tactic(auto, unfolding(term_meaning::specs::Step::grow))]
fn grow(
    origin: &Origin<'_>,
    part: Form<'_>,
    seen: &[Binding],
    more: Grown,
    completions: &[Completion],
) -> Result<Grown, AllocError>
    ensures { IfOk result (λ g. g ≡ grow (start_of (setting origin.entry.now) (form_pattern part.entry)) seen.now more completions.now) }
{
    let mut all = more;
    'completions: for completion in completions {
        all = grown(origin, part, seen, all, completion.as_slice())?;
    }
    Ok(all)
}

fn followed(
    held: Held<Progress>,
    completions: Completions,
    ran_fitted: bool,
    a: Stepped,
    grown: Grown,
) -> Stepped
    ensures { (ran : TheRan) → ran.completions ≡ completions → ran.fitted ≡ ran_fitted → result ≡ followed_step ran a grown }
{
    let over = is_gone(&a.left) && grown.copies.len() == 0;
    let Stepped {
        completions: _,
        left,
        next: _,
        fitted,
    } = a;
    let Grown { copies, next } = grown;
    Stepped {
        completions,
        left: unless(over, Progress::Followed(refilled(held, left), copies)),
        next,
        fitted: ran_fitted || fitted,
    }
}

/// What is left of `X -> Y` after its copies ran and X was stepped.
#[tactic(auto, unfolding(term_meaning::specs::Step::growing))]
pub fn growing(
    origin: &Origin<'_>,
    held: Held<Progress>,
    ran: Ran,
    a: Stepped,
    whole: Form<'_>,
    seen: &[Binding],
) -> Result<Stepped, AllocError>
    ensures { IfOk result (λ r. r ≡ growing (setting origin.entry.now) ran a (form_pattern whole.entry) seen.now) }
{
    let Ran {
        completions,
        copies,
        next: _,
        fitted,
    } = ran;
    let more = Grown {
        copies: those_left(copies),
        next: a.next,
    };
    let grown = grow(
        origin,
        second_of(whole),
        seen,
        more,
        a.completions.as_slice(),
    )?;
    Ok(followed(held, completions, fitted, a, grown))
}
