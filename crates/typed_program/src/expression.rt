use epl_tree::{Comparison, Operator};
use epl_values::{List, Shape, Text};
use sqlite_items::Boxed;

/// An expression, with the shape of its value. `None` stands where it gives none: a call of an action without a result,
/// or of a method that changes its object.
#[cycle(expression)]
#[derive(Drop)]
pub struct TypedExpr {
    pub shape: Option<Shape>,
    pub node: TypedNode,
}

/// Expressions, in order.
pub type TypedExprs = List<TypedExpr>;

/// What an expression is made of. Parentheses leave no node. A chain of operators groups to the left.
#[cycle(expression)]
#[derive(Drop)]
pub enum TypedNode {
    Integer(i64),
    Text(Text),
    Boolean(bool),
    /// The global of the monitor with this number.
    Global(u16),
    /// The parameter or local of the body with this number.
    Local(u16),
    /// The first operand, and those behind each `or`.
    Or(Boxed<TypedExpr>, TypedExprs),
    /// The first operand, and those behind each `xor`.
    Xor(Boxed<TypedExpr>, TypedExprs),
    /// The first operand, and those behind each `and`.
    And(Boxed<TypedExpr>, TypedExprs),
    Not(Boxed<TypedExpr>),
    Compare(Boxed<TypedExpr>, Comparison, Boxed<TypedExpr>),
    /// Integers or texts: the first operand, and each `+` or `-` with the operand behind it. Texts are joined.
    Sum(Boxed<TypedExpr>, TypedLinks),
    /// The first operand, and each `*`, `/` or `%` with the operand behind it.
    Product(Boxed<TypedExpr>, TypedLinks),
    Minus(Boxed<TypedExpr>),
    /// A value, and the fields, elements and methods behind it.
    Postfix(Boxed<TypedExpr>, TypedSuffixes),
    /// A call of the action with this number.
    Action(u16, TypedExprs),
    /// An event of the type with this number, its fields in order.
    Event(u16, TypedExprs),
    Sequence(TypedExprs),
    Dictionary(TypedEntries),
    /// The default of the shape.
    Default,
    /// A context of this name; the second argument says whether it takes events without a channel.
    Context(TypedExprs),
    ContextCurrent,
    /// The tenths of a second of a duration.
    Tenths(i64),
}

/// An operator of a chain, and the operand behind it.
#[cycle(expression)]
#[derive(Drop)]
pub struct TypedLink {
    pub operator: Operator,
    pub operand: TypedExpr,
}

/// Operators with their operands, in order.
pub type TypedLinks = List<TypedLink>;

/// What follows a value, with the shape of what is reached.
#[cycle(expression)]
#[derive(Drop)]
pub struct TypedSuffix {
    pub shape: Option<Shape>,
    pub node: TypedSuffixNode,
}

/// What follows a value, in order.
pub type TypedSuffixes = List<TypedSuffix>;

/// A field, an element, or a method with its arguments.
#[cycle(expression)]
#[derive(Drop)]
pub enum TypedSuffixNode {
    /// The field of an event with this number.
    Field(u16),
    /// The element of a sequence at an index.
    Item(Boxed<TypedExpr>),
    /// The value of a dictionary at a key.
    Key(Boxed<TypedExpr>),
    Method(Method, TypedExprs),
}

/// A key and its value in a literal of a dictionary.
#[cycle(expression)]
#[derive(Drop)]
pub struct TypedEntry {
    pub key: TypedExpr,
    pub value: TypedExpr,
}

/// The entries of a literal of a dictionary, in order.
pub type TypedEntries = List<TypedEntry>;

/// A method of a type.
#[derive(Clone, Copy, Debug, PartialEq, Eq)]
pub enum Method {
    ToString,
    Length,
    Substring,
    Size,
    IndexOf,
    HasKey,
    Keys,
    Append,
    Remove,
    Clear,
    Add,
    Clone,
    Quit,
}
