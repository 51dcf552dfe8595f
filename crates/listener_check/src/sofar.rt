use epl_values::Texts;
use typed_program::TypedExprs;

/// What stands in front of a part of an event expression, in order of the source.
#[derive(Drop)]
pub struct Sofar {
    /// How many templates, waits and deadlines of groups there are.
    pub leaves: usize,
    /// How many operands and durations there are, with those that are evaluated only when a template begins.
    pub sums: usize,
    /// What is evaluated at the `on`.
    pub operands: TypedExprs,
    /// The names that are bound.
    pub names: Texts,
}
