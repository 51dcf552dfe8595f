use epl_tree::{Comparison, Mode};
use epl_values::List;
use sqlite_items::Boxed;

/// An event expression. A chain of operators groups to the left.
#[cycle(term)]
#[derive(Drop)]
pub enum Term {
    /// The first operand, and those behind each `->`.
    Followed(Boxed<Term>, Terms),
    /// The first operand, and those behind each `or`.
    Or(Boxed<Term>, Terms),
    /// The first operand, and those behind each `xor`.
    Xor(Boxed<Term>, Terms),
    /// The first operand, and those behind each `and`.
    And(Boxed<Term>, Terms),
    All(Boxed<Term>),
    /// Stands only as one of two operands of an `and`.
    Not(Boxed<Term>),
    /// In parentheses, with its duration if it has one.
    Group(Boxed<Term>, Option<Duration>),
    Wait(Duration),
    Template(TemplateShape),
}

/// Event expressions, in order.
pub type Terms = List<Term>;

/// A duration of an event expression.
#[derive(Clone, Copy, Debug, PartialEq, Eq)]
pub struct Duration {
    /// Its place among the site's operands.
    pub operand: u16,
    /// Whether the operand tells tenths of a second; else it tells seconds.
    pub tenths: bool,
}

/// What a template asks of an event.
#[derive(Drop)]
pub struct TemplateShape {
    /// The number of the event type.
    pub event: u16,
    pub mode: Mode,
    pub constraints: Constraints,
    /// The place of the name that the event is bound to among the site's bound names.
    pub binds: Option<u16>,
    /// The duration of its `within`.
    pub within: Option<Duration>,
}

/// What a template asks of a field.
#[derive(Drop)]
pub struct Constraint {
    /// The number of the field.
    pub field: u16,
    pub node: ConstraintNode,
}

/// Constraints, in order of their writing.
pub type Constraints = List<Constraint>;

/// What a constraint asks of the value of its field.
#[derive(Drop)]
pub enum ConstraintNode {
    /// `*`
    Any,
    /// `=`, `<`, `<=`, `>` or `>=` an operand.
    Compares(Comparison, Operand),
    Lies(Range),
}

/// The values between two ends.
#[derive(Drop)]
pub struct Range {
    pub low: RangeEnd,
    pub high: RangeEnd,
}

/// An end of a range; a closed one lies in the range.
#[derive(Drop)]
pub struct RangeEnd {
    pub closed: bool,
    pub bound: Operand,
}

/// What a field is compared with.
#[derive(Drop)]
pub enum Operand {
    /// The place among the site's operands of one that is evaluated at the `on`.
    Given(u16),
    /// The path from the bound name with this place.
    Bound(u16, FieldNumbers),
    /// That path plus the operand of the site with this place.
    BoundPlus(u16, FieldNumbers, u16),
    /// That path minus the operand of the site with this place.
    BoundMinus(u16, FieldNumbers, u16),
}

/// Numbers of fields, each in the event that the one before it reached.
pub type FieldNumbers = List<u16>;
