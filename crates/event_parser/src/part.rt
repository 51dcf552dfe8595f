/// A part of an event expression in which the count of nesting rises.
#[derive(Clone, Copy, Debug, PartialEq, Eq)]
pub enum EventPart {
    /// An event expression.
    Whole,
    /// The operand of an `all` or `not`.
    Prefixed,
}
