/// A part of an expression that is read by itself, or in which the count of nesting rises.
#[derive(Clone, Copy, Debug, PartialEq, Eq)]
pub enum Part {
    /// An expression.
    Whole,
    /// The operand of a `not`.
    Negated,
    /// A sum.
    Sum,
    /// The operand of a unary `-`.
    Signed,
    /// A primary and what follows it.
    Postfix,
}
