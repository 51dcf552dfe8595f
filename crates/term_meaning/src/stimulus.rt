use epl_values::{List, Value};

/// What comes to an event expression: an event, the same event where no ordinary template fitted it, the same event once it is
/// handled, or a time in tenths of a second.
#[derive(Drop)]
pub enum Stimulus {
    Event(Value),
    Unmatched(Value),
    Completed(Value),
    Time(i128),
}

/// An event, and the place among the bound names of the name that it is bound to.
#[derive(Drop)]
pub struct Binding {
    pub local: u16,
    pub event: Value,
}

/// A completion of an event expression: what it bound, in order.
pub type Completion = List<Binding>;

/// Completions, in order.
pub type Completions = List<Completion>;
