ghost use Rattle.std.specs.Prelude.{◌≡◌, [], ◌+◌, ◌<◌, None, MatchResult, IfOk, OnErr};
ghost use Rattle.slot_arena.specs.Arena.{found, held_count, Takes};
ghost use Rattle.instance_store.specs.Channels.{Ascend};
ghost use Rattle.instance_store.specs.Changes.{begun, Ends, HasGlobals, HasMonitor, Holds, Releases};

use crate::{Held, HoldFault};
use epl_values::{Text, Texts, Values};
use slot_arena::{Counts, Key, Slots, Stale};
use std::alloc::{AllocError, Global};
use std::marker::Model;

/// An instance: the number of its monitor, its globals, and the channels that it holds.
#[derive(Drop)]
pub struct Instance {
    pub monitor: u16,
    pub globals: Values,
    pub held: Held,
}

/// The instances of a context, under keys.
#[derive(Drop)]
pub struct Instances {
    alloc: Global,
    slots: Slots<Instance>,
}

impl Model for Instances {
    ghost use Rattle.slot_arena.specs.Arena.{Arena};
    ghost use Rattle.instance_store.specs.declared.instances.Instance.{Instance as TheInstance};
    ghost use Rattle.epl_values.specs.contracts.value.Value as value;
    ghost use Rattle.std.specs.Coded.{codes};

    ghost Value = { Arena TheInstance };

    ghost coded = { Prim.hlevel (codes, value.the_row.coded) };

    ghost view = { λ s. s.slots };
}

impl Instances {
    ghost use Rattle.std.specs.Borrow.{sem};
    ghost use Rattle.instance_store.specs.Lends.{lends_globals};

    /// No instance was begun. It keeps the allocator and takes no memory.
    pub fn new(alloc: Global) -> Instances
        ensures { result ≡ record { held = []; taken = 0; returned = 0 } }
    {
        Instances {
            alloc,
            slots: Slots::new(alloc),
        }
    }

    /// How many instances were begun, and how many have ended; the others are there.
    pub fn counts(&self) -> Counts
        ensures taken { result.taken ≡ self.now.taken }
        ensures returned { result.returned ≡ self.now.returned }
        ensures held { held_count self.now + result.returned ≡ result.taken }
    {
        self.slots.counts()
    }

    /// Begins an instance of a monitor with these globals, which holds no channel. Where there is no memory all is as before.
    pub fn begin(&mut self, monitor: u16, globals: Values) -> Result<Key, AllocError>
        requires { self.old.taken < 4294967295 }
        ensures ok { IfOk result (λ key. Takes self.old self.new key (begun monitor globals)) }
        ensures err { OnErr result (self.new ≡ self.old) }
    {
        let held = Held::new(self.alloc);
        let instance = Instance {
            monitor,
            globals,
            held,
        };
        match self.slots.take(instance) {
            Ok(key) => Ok(key),
            Err(_refused) => Err(AllocError),
        }
    }

    /// The number of an instance's monitor; `Stale` exactly where the key names nothing.
    pub fn monitor(&self, key: Key) -> Result<u16, Stale>
        ensures { MatchResult result (λ monitor. HasMonitor self.now key monitor) (λ _. found self.now key ≡ None) }
    {
        let instance = self.slots.get(key)?;
        Ok(instance.monitor)
    }

    /// The globals of an instance, to be changed; `Stale` exactly where the key names nothing.
    pub fn globals_mut(&mut self, key: Key) -> Result<&mut Values, Stale>
        ensures* lends { sem 𝓛 (lends_globals self.entry key result) }
        ensures value { MatchResult result (λ globals. HasGlobals self.old key globals.now) (λ _. found self.old key ≡ None) }
    {
        match self.slots.get_mut(key) {
            Ok(instance) => Ok(&mut instance.globals),
            Err(stale) => Err(stale),
        }
    }

    /// An instance holds a channel once more. Where its key names nothing, or there is no memory, all is as before.
    pub fn hold(&mut self, key: Key, channel: &Text) -> Result<(), HoldFault>
        ensures { Holds self.old self.new key channel.now result }
    {
        let instance = self.slots.get_mut(key)?;
        let channel = Text::of(self.alloc, channel.as_str())?;
        instance.held.add(channel)?;
        Ok(())
    }

    /// An instance holds a channel once less, and whether it held it; `Stale` exactly where the key names nothing.
    pub fn release(&mut self, key: Key, channel: &Text) -> Result<bool, Stale>
        ensures { Releases self.old self.new key channel.now result }
    {
        let instance = self.slots.get_mut(key)?;
        Ok(instance.held.remove(channel.as_str()))
    }

    /// Ends an instance and gives the channels that it held, in ascending order, one as often as it was held; `Stale` exactly where the
    /// key names nothing.
    pub fn end(&mut self, key: Key) -> Result<Texts, Stale>
        ensures ends { Ends self.old self.new key result }
        ensures order { IfOk result (λ channels. Ascend channels) }
    {
        let instance = self.slots.give_back(key)?;
        Ok(instance.held.into_texts())
    }
}
