use action_host::Fault;
use epl_values::{List, Text, Value};

/// What an entry of a context carries.
#[derive(Drop)]
pub enum Cargo {
    /// Begins an instance of the monitor with this number.
    Load(u16),
    /// An event.
    Event(Value),
    /// The time that it is from then on, in tenths of a second.
    Time(i128),
}

/// A line that a context prints.
#[derive(Drop)]
pub enum Line {
    /// The text of a `print`.
    Print(Text),
    /// The number of the level of a `log`, from 0 for `CRIT`, and its text.
    Log(u8, Text),
    /// The number of the monitor whose instance a fault ended, and the fault.
    Fault(u16, Fault),
}

/// The lines of a context, in order.
pub type Lines = List<Line>;
