use epl_values::{List, Text, Value};

/// What the event file has.
#[derive(Drop)]
pub enum Item {
    /// An event for a channel; the empty channel is that of events without one.
    Event(Text, Value),
    /// The time that it is from then on, in tenths of a second.
    Time(i128),
}

/// The items of an event file, in order.
pub type Items = List<Item>;
