ghost use Rattle.std.specs.Prelude.{◌≡◌, map};
ghost use Rattle.std.specs.List.{list_any};
ghost use Rattle.term_meaning.specs.Waits.{leaf_waits, waits_in, waits_in_copy, waits_in_sides};

use term_meaning::{Leaf, Progress, Running, RunningCopies, Sides, Stimulus};
use term_operands::{hears, is_due, is_late};

fn leaf_waits(stimulus: &Stimulus, leaf: &Leaf) -> bool
    ensures { result ≡ leaf_waits stimulus.now leaf.now }
{
    hears(stimulus, leaf) || is_late(stimulus, leaf.until)
}

/// Whether something in an event expression waits for a stimulus.
#[cycle(waiting)]
#[tactic(auto, using(crate::proofs::Waits::waiting))]
pub fn waits_in(progress: &Progress, stimulus: &Stimulus) -> bool
    ensures { result ≡ waits_in stimulus.now progress.now }
{
    match progress {
        Progress::Gone => false,
        Progress::Template(leaf) => leaf_waits(stimulus, leaf),
        Progress::Wait(_, due) => is_due(stimulus, *due),
        Progress::All(x) => waits_in(x.get(), stimulus),
        Progress::Followed(x, copies) => {
            waits_in(x.get(), stimulus) || any_waits(copies, stimulus)
        }
        Progress::And(sides, _, _) => either_waits(sides, stimulus),
        Progress::AndNot(sides) => either_waits(sides, stimulus),
        Progress::NotAnd(sides) => either_waits(sides, stimulus),
        Progress::Or(sides) => either_waits(sides, stimulus),
        Progress::Xor(sides) => either_waits(sides, stimulus),
        Progress::Within(_, until, x) => { is_due(stimulus, *until) || waits_in(x.get(), stimulus) }
    }
}

#[cycle(waiting)]
#[tactic(auto, using(crate::proofs::Waits::sides_wait_is))]
fn either_waits(sides: &Sides, stimulus: &Stimulus) -> bool
    ensures { result ≡ waits_in_sides stimulus.now sides.now }
{
    waits_in(sides.left.get(), stimulus) || waits_in(sides.right.get(), stimulus)
}

#[cycle(waiting)]
#[tactic(auto, using(crate::proofs::Waits::copy_wait_is))]
fn copy_waits(copy: &Running, stimulus: &Stimulus) -> bool
    ensures { result ≡ waits_in_copy stimulus.now copy.now }
{
    waits_in(&copy.progress, stimulus)
}

#[cycle(waiting)]
fn any_waits(copies: &RunningCopies, stimulus: &Stimulus) -> bool
    ensures { result ≡ list_any (λ c. c) (map (waits_in_copy stimulus.now) copies.now) }
{
    'copies: for copy in copies.as_slice() {
        if copy_waits(copy, stimulus) {
            return true;
        }
    }
    false
}
