use epl_values::{List, Value, Values};

/// A running monitor: its number among the instances of its context, from 1, its monitor, and its globals by number.
#[derive(Drop)]
pub struct Instance {
    pub number: u64,
    pub monitor: u16,
    pub globals: Values,
}

/// The instances of a context, in order of beginning.
pub type Instances = List<Instance>;

/// What waits in front of a context, to be handled before its next entry.
#[derive(Drop)]
pub enum Waiting {
    /// An event that was routed.
    Event(Value),
    /// The mark that an event has been handled.
    Completed(Value),
}

/// What waits, the first first.
pub type Waitings = List<Waiting>;
