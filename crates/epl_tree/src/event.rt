use crate::expression::{Comparison, Expr};
use crate::name::Name;
use epl_values::{List, Text};
use span_text::Spot;
use sqlite_items::Boxed;

/// An event expression.
#[cycle(event)]
#[derive(Drop)]
pub struct EventExpr {
    pub spot: Spot,
    pub node: EventNode,
}

/// Event expressions, in order.
pub type EventExprs = List<EventExpr>;

/// What an event expression is made of. A chain of operators is a node only where it has an operator; it groups to the left.
#[cycle(event)]
#[derive(Drop)]
pub enum EventNode {
    /// The first operand, and those behind each `->`.
    Followed(Boxed<EventExpr>, EventExprs),
    /// The first operand, and those behind each `or`.
    Or(Boxed<EventExpr>, EventExprs),
    /// The first operand, and those behind each `xor`.
    Xor(Boxed<EventExpr>, EventExprs),
    /// The first operand, and those behind each `and`.
    And(Boxed<EventExpr>, EventExprs),
    All(Boxed<EventExpr>),
    Not(Boxed<EventExpr>),
    /// In parentheses, with the duration of its `within` if it has one.
    Group(Boxed<EventExpr>, Option<Duration>),
    Wait(Duration),
    Template(Template),
}

/// A template of events.
#[derive(Drop)]
pub struct Template {
    pub mode: Mode,
    /// The event type by its name.
    pub event: Text,
    pub constraints: Constraints,
    /// `as` and `within`, each at most once.
    pub clauses: TemplateClauses,
}

/// Which events a template waits for.
#[derive(Clone, Copy, Debug, PartialEq, Eq)]
pub enum Mode {
    Ordinary,
    Unmatched,
    Completed,
}

/// What follows a template's constraints.
#[derive(Drop)]
pub enum TemplateClause {
    /// The name that the event is bound to.
    As(Name),
    Within(Duration),
}

/// What follows a template's constraints, in order.
pub type TemplateClauses = List<TemplateClause>;

/// What a template asks of a field.
#[derive(Drop)]
pub struct Constraint {
    pub spot: Spot,
    pub node: ConstraintNode,
}

/// Constraints, in order.
pub type Constraints = List<Constraint>;

/// A constraint by position, or by the name of its field.
#[derive(Drop)]
pub enum ConstraintNode {
    /// `*`
    Any,
    /// The field equals this.
    Equals(Expr),
    /// One of `<`, `<=`, `>` and `>=`.
    Compares(Comparison, Expr),
    Lies(Range),
    /// One of `=`, `<`, `<=`, `>` and `>=`.
    NamedCompares(Text, Comparison, Expr),
    NamedLies(Text, Range),
}

/// The values between two ends.
#[derive(Drop)]
pub struct Range {
    pub low: RangeEnd,
    pub high: RangeEnd,
}

/// An end of a range; a closed one lies in the range.
#[derive(Drop)]
pub struct RangeEnd {
    pub closed: bool,
    pub bound: Expr,
}

/// A duration.
#[derive(Drop)]
pub struct Duration {
    pub spot: Spot,
    pub node: DurationNode,
}

/// What is written for a duration.
#[derive(Drop)]
pub enum DurationNode {
    /// Seconds, with tenths of a second behind the point.
    Decimal(Text),
    /// Whole seconds.
    Seconds(Expr),
}
