use epl_values::Text;
use span_text::Spot;
use sqlite_items::Boxed;

/// A type as it is written.
#[cycle(types)]
#[derive(Drop)]
pub struct TypeExpr {
    pub spot: Spot,
    pub node: TypeNode,
}

/// What is written for a type.
#[cycle(types)]
#[derive(Drop)]
pub enum TypeNode {
    Integer,
    Boolean,
    Text,
    Context,
    Listener,
    /// An event type by its name.
    Named(Text),
    /// Of this element.
    Sequence(Boxed<TypeExpr>),
    /// Of this key and this value.
    Dictionary(Boxed<TypeExpr>, Boxed<TypeExpr>),
}
