ghost use Rattle.std.specs.Prelude.{◌≡◌, ◌<◌, ◌++◌, [], length, slice_set, IfOk, OnOk};
ghost use Rattle.std.specs.Option.{option_copied};
ghost use Rattle.actor_theory.specs.Machine.{empty_queues, queue_at};
ghost use Rattle.entry_queues.specs.Queued.{Gathers, first_of, rest_of};

use epl_values::Memory;
use queues::Queue;
use record_book::Entry;
use std::alloc::Global;

/// For each actor the entries that are on their way to it, in order: the slots, and the reader last.
pub type Queued = Vec<Queue<Entry>>;

/// So many empty queues.
pub fn empty_queues(alloc: Global, actors: u8) -> Result<Queued, Memory>
    ensures { IfOk result (λ queues. queues.items ≡ empty_queues actors) }
{
    let mut queues = Vec::new(alloc);
    'actors: for _actor in 0..actors {
        queues.push(Queue::new(alloc))?;
    }
    Ok(queues)
}

/// The oldest entry for an actor; `None` exactly where there is none.
pub fn first_at(queued: &Queued, actor: u8) -> Option<&Entry>
    requires { actor < length queued.now.items }
    ensures { option_copied result ≡ first_of (queue_at queued.now.items actor) }
{
    queued[actor as usize].first()
}

/// Takes the oldest entry for an actor; `None` exactly where there is none.
pub fn pop_at(queued: &mut Queued, actor: u8) -> Option<Entry>
    requires { actor < length queued.old.items }
    ensures first { result ≡ first_of (queue_at queued.old.items actor) }
    ensures rest { queued.new.items ≡ slice_set queued.old.items actor (rest_of (queue_at queued.old.items actor)) }
{
    queued[actor as usize].pop_first()
}

/// Moves the entries of a queue behind those of another one.
fn move_all(from: &mut Queue<Entry>, to: &mut Queue<Entry>) -> Result<(), Memory>
    ensures moved { OnOk result (to.new ≡ to.old ++ from.old) }
    ensures emptied { OnOk result (from.new ≡ []) }
{
    'entries: while let Some(entry) = from.pop_first() {
        to.push(entry)?;
    }
    Ok(())
}

/// Moves what an actor has sent behind what waits for each actor. After want of memory nothing is said of either.
pub fn gather(outboxes: &mut Queued, queued: &mut Queued) -> Result<(), Memory>
    requires { length outboxes.old.items ≡ length queued.old.items }
    ensures { OnOk result (Gathers outboxes.old.items queued.old.items outboxes.new.items queued.new.items) }
{
    'actors: for actor in 0..outboxes.len() {
        move_all(&mut outboxes[actor], &mut queued[actor])?;
    }
    Ok(())
}
