use crate::types::TypeExpr;
use epl_values::{List, Text};
use span_text::Spot;
use sqlite_items::Boxed;

/// An expression.
#[cycle(expression)]
#[derive(Drop)]
pub struct Expr {
    pub spot: Spot,
    pub node: ExprNode,
}

/// Expressions, in order.
pub type Exprs = List<Expr>;

/// What an expression is made of. A chain of operators is a node only where it has an operator; it groups to the left.
#[cycle(expression)]
#[derive(Drop)]
pub enum ExprNode {
    /// The first operand, and those behind each `or`.
    Or(Boxed<Expr>, Exprs),
    /// The first operand, and those behind each `xor`.
    Xor(Boxed<Expr>, Exprs),
    /// The first operand, and those behind each `and`.
    And(Boxed<Expr>, Exprs),
    Not(Boxed<Expr>),
    Compare(Boxed<Expr>, Comparison, Boxed<Expr>),
    /// The first operand, and each `+` or `-` with the operand behind it.
    Sum(Boxed<Expr>, Links),
    /// The first operand, and each `*`, `/` or `%` with the operand behind it.
    Product(Boxed<Expr>, Links),
    Minus(Boxed<Expr>),
    /// A primary, and what follows it: at least one field, method or index.
    Postfix(Boxed<Expr>, Suffixes),
    /// The digits.
    Integer(Text),
    /// Without the quotes, the escapes resolved.
    Quoted(Text),
    Boolean(bool),
    Name(Text),
    /// A name and the arguments in parentheses behind it.
    Call(Text, Exprs),
    /// A literal of a sequence.
    Sequence(Exprs),
    /// A literal of a dictionary.
    Dictionary(Entries),
    /// The default of a type.
    New(TypeExpr),
    /// `context` and its arguments.
    Context(Exprs),
    /// `context.current()`.
    ContextCurrent,
    /// In parentheses.
    Group(Boxed<Expr>),
}

/// An operator of a chain, and the operand behind it.
#[cycle(expression)]
#[derive(Drop)]
pub struct Link {
    pub operator: Operator,
    pub operand: Expr,
}

/// Operators with their operands, in order.
pub type Links = List<Link>;

/// What follows a primary.
#[cycle(expression)]
#[derive(Drop)]
pub struct Suffix {
    pub spot: Spot,
    pub node: SuffixNode,
}

/// What follows a primary, in order.
pub type Suffixes = List<Suffix>;

/// A field, a method with its arguments, or an index.
#[cycle(expression)]
#[derive(Drop)]
pub enum SuffixNode {
    Field(Text),
    Method(Text, Exprs),
    Index(Boxed<Expr>),
}

/// A key and its value in a literal of a dictionary.
#[cycle(expression)]
#[derive(Drop)]
pub struct Entry {
    pub key: Expr,
    pub value: Expr,
}

/// The entries of a literal of a dictionary, in order.
pub type Entries = List<Entry>;

/// An operator of a chain of integers, or of texts for `Add`.
#[derive(Clone, Copy, Debug, PartialEq, Eq)]
pub enum Operator {
    Add,
    Subtract,
    Multiply,
    Divide,
    Remainder,
}

/// An operator that compares.
#[derive(Clone, Copy, Debug, PartialEq, Eq)]
pub enum Comparison {
    Equal,
    NotEqual,
    Less,
    LessEqual,
    Greater,
    GreaterEqual,
}
