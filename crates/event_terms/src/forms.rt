ghost use Rattle.std.specs.Prelude.{◌≡◌, [], ◌∷◌, ◌++◌, IsTrue, IsFalse, IfOk, if◌then◌else◌};
ghost use Rattle.std.specs.Option.{option_copied};
ghost use Rattle.term_meaning.specs.declared.progress.Progress.TheVariants.{AndNot as TheAndNot, Gone as TheGone, NotAnd as TheNotAnd};
ghost use Rattle.term_meaning.specs.declared.progress.Started.{Started as TheStarted};
ghost use Rattle.term_meaning.specs.Start.{sides_of};
ghost use Rattle.term_meaning.specs.Step.{all_step, and_left, and_over, and_step, bound, completed, completes, either_over, is_gone, is_spent, last_of, not_step, or_step, still, template_step, unless, wait_step, with_left, with_right, within_step, xor_step};

use crate::starting::sides_of;
use epl_values::{List, Value, copy};
use std::alloc::{AllocError, Global};
use term_meaning::{
    Binding, Completion, Completions, Held, Leaf, Progress, Sides, Started, Stepped, Stimulus,
};
use term_operands::{extend, heard, hears, is_due, is_late, is_ordinary};

#[tactic(auto, unfolding(term_meaning::specs::Step::is_gone))]
pub fn is_gone(progress: &Progress) -> bool
    ensures { result ≡ is_gone progress.now }
{
    match progress {
        Progress::Gone => true,
        Progress::Template(_) => false,
        Progress::Wait(_, _) => false,
        Progress::All(_) => false,
        Progress::Followed(_, _) => false,
        Progress::And(_, _, _) => false,
        Progress::AndNot(_) => false,
        Progress::NotAnd(_) => false,
        Progress::Or(_) => false,
        Progress::Xor(_) => false,
        Progress::Within(_, _, _) => false,
    }
}

/// No completion; this is left.
pub fn still(alloc: Global, left: Progress, next: u64) -> Stepped
    ensures { result ≡ still left next }
{
    Stepped {
        completions: List::new(alloc),
        left,
        next,
        fitted: false,
    }
}

// ---- leaves

fn bound(alloc: Global, binds: Option<u16>, event: Option<&Value>) -> Result<Completion, AllocError>
    ensures { IfOk result (λ b. b ≡ bound binds (option_copied event.entry)) }
{
    let mut bindings = List::new(alloc);
    if let Some(local) = binds {
        if let Some(event) = event {
            let event = copy(alloc, event)?;
            bindings.push(Binding { local, event })?;
        }
    }
    Ok(bindings)
}

fn completes(
    alloc: Global,
    completion: Completion,
    next: u64,
    fitted: bool,
) -> Result<Stepped, AllocError>
    ensures { IfOk result (λ a. a ≡ completes completion next fitted) }
{
    let mut completions = List::new(alloc);
    completions.push(completion)?;
    Ok(Stepped {
        completions,
        left: Progress::Gone,
        next,
        fitted,
    })
}

pub fn template(
    alloc: Global,
    stimulus: &Stimulus,
    leaf: Leaf,
    binds: Option<u16>,
    next: u64,
) -> Result<Stepped, AllocError>
    ensures { IfOk result (λ a. a ≡ template_step stimulus.now leaf binds next) }
{
    if hears(stimulus, &leaf) {
        let bindings = bound(alloc, binds, heard(leaf.mode, stimulus))?;
        return completes(alloc, bindings, next, is_ordinary(leaf.mode));
    }
    if is_late(stimulus, leaf.until) {
        return Ok(still(alloc, Progress::Gone, next));
    }
    Ok(still(alloc, Progress::Template(leaf), next))
}

pub fn wait(
    alloc: Global,
    stimulus: &Stimulus,
    number: u64,
    due: i128,
    next: u64,
) -> Result<Stepped, AllocError>
    ensures { IfOk result (λ a. a ≡ wait_step stimulus.now number due next) }
{
    if is_due(stimulus, due) {
        return completes(alloc, List::new(alloc), next, false);
    }
    Ok(still(alloc, Progress::Wait(number, due), next))
}

// ---- what is left goes back into its box

fn is_completed(a: &Stepped) -> bool
    ensures { result ≡ completed a.now }
{
    a.completions.len() != 0
}

/// Nothing where the form is over.
pub fn unless(over: bool, progress: Progress) -> Progress
    ensures { result ≡ unless over progress }
{
    if over { Progress::Gone } else { progress }
}

/// The box with another expression in it.
pub fn refilled(held: Held<Progress>, progress: Progress) -> Held<Progress>
    ensures { result ≡ progress }
{
    let mut held = held;
    let _emptied = held.put(progress);
    held
}

fn put_back(held: Sides, left: Progress, right: Progress) -> Sides
    ensures { result ≡ sides_of left right }
{
    let Sides { left: x, right: y } = held;
    sides_of(refilled(x, left), refilled(y, right))
}

// ---- all, within

pub fn all_again(a: Stepped, again: Started) -> Stepped
    requires { IsTrue (is_gone a.left) }
    ensures { result ≡ all_step a again }
{
    Stepped {
        completions: a.completions,
        left: Progress::All(again.progress),
        next: again.next,
        fitted: a.fitted,
    }
}

pub fn all_on(held: Held<Progress>, a: Stepped) -> Stepped
    requires { IsFalse (is_gone a.left) }
    ensures { (again : TheStarted) → result ≡ all_step a again }
{
    Stepped {
        completions: a.completions,
        left: Progress::All(refilled(held, a.left)),
        next: a.next,
        fitted: a.fitted,
    }
}

pub fn within(held: Held<Progress>, number: u64, until: i128, a: Stepped) -> Stepped
    ensures { result ≡ within_step number until a }
{
    let over = is_gone(&a.left);
    Stepped {
        completions: a.completions,
        left: unless(
            over,
            Progress::Within(number, until, refilled(held, a.left)),
        ),
        next: a.next,
        fitted: a.fitted,
    }
}

// ---- or, xor, not

#[tactic(auto, unfolding(term_meaning::specs::Step::either_over))]
fn either_over(a: &Stepped, b: &Stepped) -> bool
    ensures { result ≡ either_over a.now b.now }
{
    let a_over = is_gone(&a.left);
    let b_over = is_gone(&b.left);
    (is_completed(a) && a_over) || (is_completed(b) && b_over) || (a_over && b_over)
}

fn chosen(first: bool, a: Completions, b: Completions) -> Completions
    ensures { result ≡ (if first then a else b) }
{
    if first { a } else { b }
}

pub fn or(held: Sides, a: Stepped, b: Stepped) -> Stepped
    ensures { result ≡ or_step a b }
{
    let over = either_over(&a, &b);
    let a_completed = is_completed(&a);
    let Stepped {
        completions: first,
        left,
        next: _,
        fitted: a_fitted,
    } = a;
    let Stepped {
        completions: second,
        left: right,
        next,
        fitted: b_fitted,
    } = b;
    Stepped {
        completions: chosen(a_completed, first, second),
        left: unless(over, Progress::Or(put_back(held, left, right))),
        next,
        fitted: a_fitted || b_fitted,
    }
}

pub fn xor(alloc: Global, held: Sides, a: Stepped, b: Stepped) -> Stepped
    ensures { result ≡ xor_step a b }
{
    let over = either_over(&a, &b);
    let a_completed = is_completed(&a);
    let b_completed = is_completed(&b);
    let Stepped {
        completions: first,
        left,
        next: _,
        fitted: a_fitted,
    } = a;
    let Stepped {
        completions: second,
        left: right,
        next,
        fitted: b_fitted,
    } = b;
    let only = chosen(b_completed, List::new(alloc), first);
    Stepped {
        completions: chosen(a_completed, only, second),
        left: unless(over, Progress::Xor(put_back(held, left, right))),
        next,
        fitted: a_fitted || b_fitted,
    }
}

pub fn and_not(alloc: Global, held: Sides, a: Stepped, b: Stepped) -> Stepped
    ensures { result ≡ not_step TheAndNot a b a b }
{
    let dropped = is_completed(&b);
    let a_gone = is_gone(&a.left);
    let Stepped {
        completions,
        left,
        next: _,
        fitted: a_fitted,
    } = a;
    let Stepped {
        completions: _,
        left: right,
        next,
        fitted: b_fitted,
    } = b;
    Stepped {
        completions: chosen(dropped, List::new(alloc), completions),
        left: unless(
            dropped || a_gone,
            Progress::AndNot(put_back(held, left, right)),
        ),
        next,
        fitted: a_fitted || b_fitted,
    }
}

pub fn not_and(alloc: Global, held: Sides, a: Stepped, b: Stepped) -> Stepped
    ensures { result ≡ not_step TheNotAnd a b b a }
{
    let dropped = is_completed(&a);
    let b_gone = is_gone(&b.left);
    let Stepped {
        completions: _,
        left,
        next: _,
        fitted: a_fitted,
    } = a;
    let Stepped {
        completions,
        left: right,
        next,
        fitted: b_fitted,
    } = b;
    Stepped {
        completions: chosen(dropped, List::new(alloc), completions),
        left: unless(
            dropped || b_gone,
            Progress::NotAnd(put_back(held, left, right)),
        ),
        next,
        fitted: a_fitted || b_fitted,
    }
}

// ---- and

/// The last completion of a side.
#[tactic(auto, unfolding(term_meaning::specs::Step::last_of))]
fn last_of(
    alloc: Global,
    last: Option<Completion>,
    completions: &[Completion],
) -> Result<Option<Completion>, AllocError>
    ensures { IfOk result (λ l. l ≡ last_of last completions.now) }
{
    match completions.last() {
        None => Ok(last),
        Some(newest) => Ok(Some(extend(alloc, List::new(alloc), newest.as_slice())?)),
    }
}

/// Each completion of the left side with the last one of the right side.
#[tactic(auto, unfolding(term_meaning::specs::Step::with_right))]
fn with_right(
    alloc: Global,
    last: &Option<Completion>,
    completions: &[Completion],
) -> Result<Completions, AllocError>
    ensures { IfOk result (λ all. all ≡ with_right last.now completions.now) }
{
    let mut all = List::new(alloc);
    if let Some(right) = last {
        'completions: for left in completions {
            let front = extend(alloc, List::new(alloc), left.as_slice())?;
            all.push(extend(alloc, front, right.as_slice())?)?;
        }
    }
    Ok(all)
}

/// The last completion of the left side with each one of the right side, behind those that are given.
#[tactic(auto, unfolding(term_meaning::specs::Step::with_left))]
fn with_left(
    alloc: Global,
    front: Completions,
    last: &Option<Completion>,
    completions: &[Completion],
) -> Result<Completions, AllocError>
    ensures { IfOk result (λ all. all ≡ front ++ with_left last.now completions.now) }
{
    let mut all = front;
    if let Some(left) = last {
        'completions: for right in completions {
            let own = extend(alloc, List::new(alloc), left.as_slice())?;
            all.push(extend(alloc, own, right.as_slice())?)?;
        }
    }
    Ok(all)
}

#[tactic(auto, unfolding(term_meaning::specs::Step::is_spent))]
fn is_spent(progress: &Progress, last: &Option<Completion>) -> bool
    ensures { result ≡ is_spent progress.now last.now }
{
    match last {
        None => is_gone(progress),
        Some(_) => false,
    }
}

#[tactic(auto, unfolding(term_meaning::specs::Step::and_over))]
fn and_over(
    x: &Progress,
    y: &Progress,
    left: &Option<Completion>,
    right: &Option<Completion>,
) -> bool
    ensures { result ≡ and_over x.now y.now left.now right.now }
{
    (is_gone(x) && is_gone(y)) || (is_spent(x, left) || is_spent(y, right))
}

#[tactic(auto, unfolding(term_meaning::specs::Step::and_left))]
fn and_left(
    held: Sides,
    a: Stepped,
    b: Stepped,
    left: Option<Completion>,
    right: Option<Completion>,
    completions: Completions,
) -> Stepped
    ensures { result ≡ and_left a b left right completions }
{
    let over = and_over(&a.left, &b.left, &left, &right);
    let Stepped {
        completions: _,
        left: x,
        next: _,
        fitted: a_fitted,
    } = a;
    let Stepped {
        completions: _,
        left: y,
        next,
        fitted: b_fitted,
    } = b;
    Stepped {
        completions,
        left: unless(over, Progress::And(put_back(held, x, y), left, right)),
        next,
        fitted: a_fitted || b_fitted,
    }
}

pub fn and(
    alloc: Global,
    held: Sides,
    a: Stepped,
    b: Stepped,
    left: Option<Completion>,
    right: Option<Completion>,
) -> Result<Stepped, AllocError>
    ensures { IfOk result (λ r. r ≡ and_step a b left right) }
{
    let front = with_right(alloc, &right, a.completions.as_slice())?;
    let left = last_of(alloc, left, a.completions.as_slice())?;
    let completions = with_left(alloc, front, &left, b.completions.as_slice())?;
    let right = last_of(alloc, right, b.completions.as_slice())?;
    Ok(and_left(held, a, b, left, right, completions))
}
