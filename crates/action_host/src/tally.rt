use epl_values::{List, Text};

/// How often a context is subscribed to a channel.
#[derive(Drop)]
pub struct Tally {
    pub channel: Text,
    pub slot: u8,
    pub count: u64,
}

/// Such counts, ascending by channel and slot.
pub type Tallies = List<Tally>;
