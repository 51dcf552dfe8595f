//! Queues that contracts see as the list of their items, oldest first.
#![tactic(auto)]

ghost use Rattle.std.specs.Prelude.{◌≡◌, [], ◌∷◌, ◌++◌, ◌<◌, ◌^◌, length, drop, MatchOption, OnOk, OnErr};

use lists::{List, Memory};
use std::alloc::Global;
use std::collections::VecDeque;
use std::marker::Model;

/// Items in order of arrival. Both ends are reached in a bounded time.
#[derive(Debug, Drop)]
pub struct Queue<T> {
    items: VecDeque<T>,
}

impl<T> Model for Queue<T> {
    ghost use Rattle.std.specs.Prelude.{List as Listed};
    ghost use Rattle.std.specs.Coded.{coded_list};

    ghost Value = { Listed T };

    ghost coded = { coded_list T.code };

    ghost view = { λ s. s.items.items };
}

impl<T> Queue<T> {
    /// The empty queue. It keeps the allocator and takes no memory.
    pub fn new(alloc: Global) -> Queue<T>
        ensures { result ≡ [] }
    {
        Queue {
            items: VecDeque::new(alloc),
        }
    }

    /// The queue of a list's items, the first of which is the oldest.
    pub fn from_list(items: List<T>) -> Queue<T>
        ensures { result ≡ items }
    {
        Queue {
            items: VecDeque::from(items.into_vec()),
        }
    }

    /// The items as a list, the oldest first.
    pub fn into_list(self) -> List<T>
        ensures { result ≡ self }
    {
        let Queue { items } = self;
        List::from_vec(Vec::from(items))
    }

    /// How many items wait.
    pub fn len(&self) -> usize
        ensures count { result ≡ length self.now }
    {
        self.items.len()
    }

    /// The oldest item; `None` exactly where the queue is empty.
    pub fn first(&self) -> Option<&T>
        ensures { MatchOption result (self.now ≡ []) (λ first. self.now ≡ first.now ∷ drop 1 self.now) }
    {
        self.items.front()
    }

    /// Takes the oldest item; `None` exactly where the queue is empty.
    pub fn pop_first(&mut self) -> Option<T>
        ensures { MatchOption result ((self.old ≡ []) × (self.new ≡ [])) (λ first. self.old ≡ first ∷ self.new) }
    {
        self.items.pop_front()
    }
}

impl<T: Drop> Queue<T> {
    /// Adds an item behind the others. Where there is no memory the queue is as before.
    pub fn push(&mut self, item: T) -> Result<(), Memory>
        ensures ok { OnOk result (self.new ≡ self.old ++ item ∷ []) }
        ensures err { OnErr result (self.new ≡ self.old) }
    {
        self.items.push_back(item)?;
        Ok(())
    }

    /// Adds an item in front of the others, as one that was taken and goes back. Where there is no memory the queue is as before.
    pub fn push_first(&mut self, item: T) -> Result<(), Memory>
        ensures ok { OnOk result (self.new ≡ item ∷ self.old) }
        ensures err { OnErr result (self.new ≡ self.old) }
    {
        self.items.push_front(item)?;
        Ok(())
    }
}
