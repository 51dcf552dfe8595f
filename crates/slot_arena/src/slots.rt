ghost use Rattle.std.specs.Prelude.{◌≡◌, [], ◌+◌, ◌<◌, Some, None, MatchResult, IfOk, OnErr, IfErr, IsSome};
ghost use Rattle.std.specs.Borrow.{sem};
ghost use Rattle.slot_arena.specs.Arena.{found, held_count, Takes, Returns};

use crate::{Counts, Key, Refused, Stale};
use slab::Slab;
use std::alloc::Global;
use std::marker::Model;

/// Values under keys.
#[derive(Drop)]
pub struct Slots<T> {
    slab: Slab<(u64, T)>,
    taken: u64,
    returned: u64,
}

impl<T> Model for Slots<T> {
    ghost use Rattle.slot_arena.specs.Arena.{Arena, arena_code, IsSound};

    ghost Value = { Arena T };

    ghost coded = { arena_code T.code };

    ghost view = { λ s. record { held = s.slab.slots; taken = s.taken; returned = s.returned } };

    ghost invariant = { λ s. IsSound s.slab.slots s.taken s.returned };
}

impl<T> Slots<T> {
    ghost use Rattle.slot_arena.specs.Lends.{lends_value, lends_found};

    /// Nothing is held. It keeps the allocator and takes no memory.
    pub fn new(alloc: Global) -> Slots<T>
        ensures { result ≡ record { held = []; taken = 0; returned = 0 } }
    {
        Slots {
            slab: Slab::new(alloc),
            taken: 0,
            returned: 0,
        }
    }

    /// How many values were taken in and given back; the others are held.
    pub fn counts(&self) -> Counts
        ensures taken { result.taken ≡ self.now.taken }
        ensures returned { result.returned ≡ self.now.returned }
        ensures held { held_count self.now + result.returned ≡ result.taken }
    {
        Counts {
            taken: self.taken,
            returned: self.returned,
        }
    }

    /// Takes a value in under a new key. Where there is no memory, or no number for its slot, the value comes back, and all is as before.
    pub fn take(&mut self, value: T) -> Result<Key, Refused<T>>
        requires { self.old.taken < 4294967295 }
        ensures ok { IfOk result (λ key. Takes self.old self.new key value) }
        ensures err { OnErr result (self.new ≡ self.old) }
        ensures back { IfErr result (λ refused. refused.value ≡ value) }
    {
        let Ok(slot) = u32::try_from(self.slab.vacant_key()) else {
            return Err(Refused { value });
        };
        let generation = self.taken + 1;
        match self.slab.insert((generation, value)) {
            Ok(_) => {
                self.taken = generation;
                Ok(Key { slot, generation })
            }
            Err(failed) => Err(Refused {
                value: failed.value.1,
            }),
        }
    }

    /// Gives the value of a key back, and the key names nothing from then on; `Stale` exactly where it names nothing.
    pub fn give_back(&mut self, key: Key) -> Result<T, Stale>
        ensures ok { IfOk result (λ value. (found self.old key ≡ Some value) × Returns self.old self.new key) }
        ensures err { OnErr result ((found self.old key ≡ None) × (self.new ≡ self.old)) }
    {
        if self.get(key).is_err() {
            return Err(Stale);
        }
        let (_, value) = self.slab.remove(key.slot as usize);
        self.returned += 1;
        Ok(value)
    }

    /// The value of a key; `Stale` exactly where it names nothing.
    pub fn get(&self, key: Key) -> Result<&T, Stale>
        ensures { MatchResult result (λ value. found self.now key ≡ Some value.now) (λ _. found self.now key ≡ None) }
    {
        match self.slab.get(key.slot as usize) {
            Some((generation, value)) if *generation == key.generation => Ok(value),
            _ => Err(Stale),
        }
    }

    /// The value of a key, to be changed; `Stale` exactly where it names nothing.
    pub fn get_mut(&mut self, key: Key) -> Result<&mut T, Stale>
        ensures* lends { sem 𝓛 (lends_found T.row self.entry key result) }
        ensures value { MatchResult result (λ value. found self.old key ≡ Some value.now) (λ _. found self.old key ≡ None) }
    {
        if self.get(key).is_ok() {
            Ok(self.value_mut(key))
        } else {
            Err(Stale)
        }
    }

    fn value_mut(&mut self, key: Key) -> &mut T
        requires { IsSome (found self.old key) }
        ensures* lends { sem 𝓛 (lends_value T.row self.entry key result) }
        ensures value { found self.old key ≡ Some result.now }
    {
        &mut self.slab[key.slot as usize].1
    }
}
