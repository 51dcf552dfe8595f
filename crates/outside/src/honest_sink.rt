ghost use Rattle.std.specs.Prelude.{◌≡◌, ◌+◌, ◌-◌, ◌<◌, ◌≤◌, [], length, max, OnOk, OnErr, vec_len, vec_capacity};

use crate::{Put, Sink};
use std::alloc::{AllocError, Global};

/// A sink in memory that fails only at a piece longer than its room, which `reserve` makes.
#[derive(Debug, Drop)]
pub struct HonestSink {
    bytes: Vec<u8>,
    room: usize,
    faults: u64,
    ghost kept: { vec_len bytes + room ≤ vec_capacity bytes },
}

impl HonestSink {
    ghost use Rattle.std.specs.Prelude.{Some};

    /// An empty sink without room. It keeps the allocator and takes no memory.
    pub fn new(alloc: Global) -> HonestSink
        ensures faults { ⟦<HonestSink as Sink>⟧.faults result ≡ 0 }
        ensures taken { ⟦<HonestSink as Sink>⟧.taken result ≡ Some [] }
        ensures room { ⟦<HonestSink as Sink>⟧.room result ≡ Some 0 }
    {
        HonestSink {
            bytes: Vec::new(alloc),
            room: 0,
            faults: 0,
        }
    }

    /// Makes room for at least so many bytes. Where there is no memory all is as before.
    pub fn reserve(&mut self, bytes: usize) -> Result<(), AllocError>
        ensures faults { ⟦<HonestSink as Sink>⟧.faults self.new ≡ ⟦<HonestSink as Sink>⟧.faults self.old }
        ensures taken { ⟦<HonestSink as Sink>⟧.taken self.new ≡ ⟦<HonestSink as Sink>⟧.taken self.old }
        ensures ok { OnOk result (⟦<HonestSink as Sink>⟧.room self.new ≡ Some (max self.old.room bytes)) }
        ensures err { OnErr result (⟦<HonestSink as Sink>⟧.room self.new ≡ ⟦<HonestSink as Sink>⟧.room self.old) }
    {
        self.bytes.reserve(bytes)?;
        self.room = self.room.max(bytes);
        Ok(())
    }

    /// The bytes taken so far.
    pub fn taken(&self) -> &[u8]
        ensures { ⟦<HonestSink as Sink>⟧.taken self.now ≡ Some result.now }
    {
        self.bytes.as_slice()
    }
}

impl Sink for HonestSink {
    ghost use Rattle.std.specs.Prelude.{Some};
    ghost use Rattle.outside.specs.Counts.{Counts};
    ghost use Rattle.outside.specs.Taken.{PutWithin, is_failed_put, taken_by, after_put, whole_put};

    ghost faults = { λ s. s.faults };

    ghost taken = { λ s. Some s.bytes.items };

    ghost room = { λ s. Some s.room };

    fn put(&mut self, piece: &[u8]) -> Put
        requires { 0 < length piece.now }
        ensures within { PutWithin result (length piece.now) }
        ensures faults { Counts (is_failed_put result) self.old.faults self.new.faults }
        ensures appends { self.new.bytes.items ≡ after_put result piece.now self.old.bytes.items }
        ensures room { self.new.room ≡ self.old.room - taken_by result }
        ensures takes { result ≡ whole_put self.old.room (length piece.now) }
    {
        let count = piece.len();
        if count > self.room {
            self.faults = self.faults.saturating_add(1);
            return Put::Failed;
        }
        self.room -= count;
        if self.bytes.extend_from_slice(piece).is_err() {
            unreachable!();
        }
        Put::Took(count)
    }
}
