use action_host::Fault;
use epl_values::{Value, Values};

/// A step of a path whose index or key is computed.
#[derive(Drop)]
pub enum Move {
    /// The field of an event with this number.
    Field(u16),
    /// The element of a sequence at this place.
    Item(i64),
    /// The value of a dictionary at this key.
    Key(Value),
}

/// How a statement ends that lets its body go on.
#[derive(Drop)]
pub enum Flow {
    Next,
    Broke,
    Continued,
    Returned(Option<Value>),
}

/// Why a body ends at once.
#[derive(Clone, Copy, Debug, PartialEq, Eq)]
pub enum Halt {
    Died,
    Failed(Fault),
    Spent,
}

/// The variables of a running body.
#[derive(Drop)]
pub struct Frame {
    pub globals: Values,
    pub locals: Values,
}
