ghost use Rattle.std.specs.Prelude.{◌≡◌, ◌<◌, ◌≤◌, [], length};

use crate::plan::Plan;
use crate::{Calls, Put, Sink};
use epl_values::Bytes;
use std::alloc::Global;

/// A sink in memory, which takes at most `most` bytes at a call. The planned calls fail, and one whose growth
/// is refused.
#[derive(Debug, Drop)]
pub struct MemorySink {
    bytes: Bytes,
    most: usize,
    plan: Plan,
    faults: u64,
    ghost positive: { 1 ≤ most },
}

impl MemorySink {
    ghost use Rattle.std.specs.Prelude.{Some, None};

    /// An empty sink. The calls with the numbers in `failing`, from 1, fail.
    pub fn new(alloc: Global, most: usize, failing: Calls) -> MemorySink
        requires { 1 ≤ most }
        ensures plan { (result.plan.calls ≡ 0) × (result.plan.failing ≡ failing) }
        ensures most { result.most ≡ most }
        ensures faults { ⟦<MemorySink as Sink>⟧.faults result ≡ 0 }
        ensures taken { ⟦<MemorySink as Sink>⟧.taken result ≡ Some [] }
    {
        MemorySink {
            bytes: Bytes::new(alloc),
            most,
            plan: Plan::new(failing),
            faults: 0,
        }
    }

    /// The bytes taken so far.
    pub fn taken(&self) -> &[u8]
        ensures { ⟦<MemorySink as Sink>⟧.taken self.now ≡ Some result.now }
    {
        self.bytes.as_slice()
    }
}

impl Sink for MemorySink {
    ghost use Rattle.std.specs.Prelude.{Some, None};
    ghost use Rattle.outside.specs.Counts.{Counts};
    ghost use Rattle.outside.specs.Plan.{counted, next_fails};
    ghost use Rattle.outside.specs.Taken.{PutWithin, is_failed_put, after_put, PlannedPut};

    ghost faults = { λ s. s.faults };

    ghost taken = { λ s. Some s.bytes };

    ghost room = { λ _. None };

    fn put(&mut self, piece: &[u8]) -> Put
        requires { 0 < length piece.now }
        ensures within { PutWithin result (length piece.now) }
        ensures faults { Counts (is_failed_put result) self.old.faults self.new.faults }
        ensures appends { self.new.bytes ≡ after_put result piece.now self.old.bytes }
        ensures plan { self.new.plan ≡ counted self.old.plan }
        ensures most { self.new.most ≡ self.old.most }
        ensures takes { PlannedPut (next_fails self.old.plan) self.old.most (length piece.now) result }
    {
        let count = piece.len().min(self.most);
        if self.plan.fails() || self.bytes.append(&piece[..count]).is_err() {
            self.faults = self.faults.saturating_add(1);
            return Put::Failed;
        }
        Put::Took(count)
    }
}
