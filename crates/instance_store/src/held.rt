ghost use Rattle.std.specs.Prelude.{◌≡◌, [], OnOk, OnErr};
ghost use Rattle.instance_store.specs.Channels.{Ascend, holds, with_one, without_one};

use crate::channels::{has, put_in, take_out};
use epl_values::{List, Text, Texts};
use std::alloc::{AllocError, Global};
use std::marker::Model;

/// The channels that an instance holds, in ascending order, one as often as it is held.
#[derive(Drop)]
pub struct Held {
    channels: Texts,
}

impl Model for Held {
    ghost use Rattle.std.specs.Prelude.{List as Listed, ℕ};
    ghost use Rattle.instance_store.specs.Channels.{Ascend};

    ghost Value = { Listed (Listed ℕ) };

    ghost view = { λ h. h.channels };

    ghost invariant = { λ h. Ascend h.channels };
}

impl Held {
    /// No channel is held. It keeps the allocator and takes no memory.
    pub fn new(alloc: Global) -> Held
        ensures { result ≡ [] }
    {
        Held {
            channels: List::new(alloc),
        }
    }

    /// Whether a channel is held.
    pub fn holds(&self, channel: &str) -> bool
        ensures { result ≡ holds channel.now self.now }
    {
        has(&self.channels, channel)
    }

    /// Holds a channel once more. Where there is no memory all is as before.
    pub fn add(&mut self, channel: Text) -> Result<(), AllocError>
        ensures ok { OnOk result (self.new ≡ with_one channel self.old) }
        ensures err { OnErr result (self.new ≡ self.old) }
    {
        put_in(&mut self.channels, channel)
    }

    /// Holds a channel once less, and whether it was held.
    pub fn remove(&mut self, channel: &str) -> bool
        ensures answer { result ≡ holds channel.now self.old }
        ensures after { self.new ≡ without_one channel.now self.old }
    {
        take_out(&mut self.channels, channel)
    }

    /// The channels.
    pub fn into_texts(self) -> Texts
        ensures channels { result ≡ self }
        ensures order { Ascend self }
    {
        let Held { channels } = self;
        channels
    }
}
