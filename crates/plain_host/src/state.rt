ghost use Rattle.std.specs.Prelude.{◌-◌, ◌^◌, ◌<◌};
ghost use Rattle.action_host.specs.Counts.{AreCounts};
ghost use Rattle.plain_host.specs.Props.{counts_prop};

use action_host::{Effect, Tallies};
use epl_values::List;
use std::alloc::Global;

/// A host that stands alone.
#[derive(Drop)]
pub struct PlainHost {
    pub alloc: Global,
    pub slot: u8,
    pub slots: u8,
    pub fuel: u64,
    pub births: u64,
    pub made: u8,
    pub subscriptions: Tallies,
    pub held: Tallies,
    pub ending: bool,
    pub taken: List<Effect>,
    ghost small: { fuel < 2 ^ 64 - 1 },
    ghost subscribed: { AreCounts subscriptions } by { counts_prop subscriptions },
    ghost holding: { AreCounts held } by { counts_prop held },
}
