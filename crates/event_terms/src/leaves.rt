ghost use Rattle.std.specs.Prelude.{◌≡◌, [], ◌∷◌, ◌++◌, map, IfOk};
ghost use Rattle.std.specs.List.{flat_map};
ghost use Rattle.term_meaning.specs.Active.{Active, leaves_in, leaves_of_copy, leaves_of_sides, timer_leaf};

use epl_tree::Mode;
use epl_values::List;
use std::alloc::{AllocError, Global};
use term_meaning::{Leaf, Leaves, Progress, Running, RunningCopies, Sides};
use term_operands::copy_leaf;

fn timer_leaf(alloc: Global, event: u16, number: u64, until: i128) -> Leaf
    ensures { result ≡ timer_leaf event number until }
{
    Leaf {
        number,
        spans: List::new(alloc),
        event,
        mode: Mode::Ordinary,
        until: Some(until),
    }
}

fn with_leaf(front: Leaves, leaf: Leaf) -> Result<Leaves, AllocError>
    ensures { IfOk result (λ all. all ≡ front ++ leaf ∷ []) }
{
    let mut all = front;
    all.push(leaf)?;
    Ok(all)
}

/// The leaves in an event expression, behind others.
#[cycle(leaves)]
#[tactic(auto, using(crate::proofs::Leaving::leaving))]
fn with_leaves(alloc: Global, front: Leaves, progress: &Progress) -> Result<Leaves, AllocError>
    ensures { IfOk result (λ all. all ≡ front ++ leaves_in progress.now) }
{
    match progress {
        Progress::Gone => Ok(front),
        Progress::Template(leaf) => with_leaf(front, copy_leaf(alloc, leaf)?),
        Progress::Wait(number, due) => { with_leaf(front, timer_leaf(alloc, 65535, *number, *due)) }
        Progress::All(x) => with_leaves(alloc, front, x.get()),
        Progress::Followed(x, copies) => {
            let all = with_leaves(alloc, front, x.get())?;
            with_copies(alloc, all, copies)
        }
        Progress::And(sides, _, _) => with_sides(alloc, front, sides),
        Progress::AndNot(sides) => with_sides(alloc, front, sides),
        Progress::NotAnd(sides) => with_sides(alloc, front, sides),
        Progress::Or(sides) => with_sides(alloc, front, sides),
        Progress::Xor(sides) => with_sides(alloc, front, sides),
        Progress::Within(number, until, x) => {
            let all = with_leaf(front, timer_leaf(alloc, 65534, *number, *until))?;
            with_leaves(alloc, all, x.get())
        }
    }
}

#[cycle(leaves)]
#[tactic(auto, using(crate::proofs::Leaving::behind_sides))]
fn with_sides(alloc: Global, front: Leaves, sides: &Sides) -> Result<Leaves, AllocError>
    ensures { IfOk result (λ all. all ≡ front ++ leaves_of_sides sides.now) }
{
    let all = with_leaves(alloc, front, sides.left.get())?;
    with_leaves(alloc, all, sides.right.get())
}

#[cycle(leaves)]
#[tactic(auto, using(crate::proofs::Leaving::copy_leaves))]
fn with_copy(alloc: Global, front: Leaves, copy: &Running) -> Result<Leaves, AllocError>
    ensures { IfOk result (λ all. all ≡ front ++ leaves_of_copy copy.now) }
{
    with_leaves(alloc, front, &copy.progress)
}

#[cycle(leaves)]
fn with_copies(alloc: Global, front: Leaves, copies: &RunningCopies) -> Result<Leaves, AllocError>
    ensures { IfOk result (λ all. all ≡ front ++ flat_map (λ leaves. leaves) (map leaves_of_copy copies.now)) }
{
    let mut all = front;
    'copies: for copy in copies.as_slice() {
        all = with_copy(alloc, all, copy)?;
    }
    Ok(all)
}

/// The active leaves, in order of their beginning.
pub fn active_leaves(alloc: Global, progress: &Progress) -> Result<Leaves, AllocError>
    ensures { IfOk result (Active progress.now) }
{
    let mut leaves = with_leaves(alloc, List::new(alloc), progress)?.into_vec();
    leaves.sort_by_key(|leaf| leaf.number)?;
    Ok(List::from_vec(leaves))
}
