ghost use Rattle.std.specs.Prelude.{◌≡◌, ◌↔◌, IsTrue, IfOk};

use crate::Text;
use lists::List;
use sqlite_items::Boxed;
use std::alloc::{AllocError, Global};

/// What values a variable, field or expression has.
#[derive(Drop)]
pub enum Shape {
    Integer,
    Boolean,
    Text,
    /// Of this element.
    Sequence(Boxed<Shape>),
    /// Of this key and this value.
    Dictionary(Boxed<Shape>, Boxed<Shape>),
    /// Of the event type with this number.
    Event(u16),
    Context,
    Listener,
}

/// Shapes, in order.
pub type Shapes = List<Shape>;

/// A field of an event type.
#[derive(Drop)]
pub struct Field {
    pub name: Text,
    pub shape: Shape,
}

/// The fields of an event type, in order.
pub type Fields = List<Field>;

/// An event type: its name and its fields.
#[derive(Drop)]
pub struct EventShape {
    pub name: Text,
    pub fields: Fields,
}

/// The event types of a program; a type's number is its place here.
pub type EventShapes = List<EventShape>;

/// Whether two shapes are the same.
pub fn same_shape(left: &Shape, right: &Shape) -> bool
    ensures { IsTrue result ↔ (left.now ≡ right.now) }
{
    match (left, right) {
        (Shape::Integer, Shape::Integer) => true,
        (Shape::Boolean, Shape::Boolean) => true,
        (Shape::Text, Shape::Text) => true,
        (Shape::Sequence(x), Shape::Sequence(y)) => same_shape(x.get(), y.get()),
        (Shape::Dictionary(k, x), Shape::Dictionary(l, y)) => {
            same_shape(k.get(), l.get()) && same_shape(x.get(), y.get())
        }
        (Shape::Event(n), Shape::Event(m)) => *n == *m,
        (Shape::Context, Shape::Context) => true,
        (Shape::Listener, Shape::Listener) => true,
        _ => false,
    }
}

/// A shape of its own that is equal to this one.
pub fn copy_shape(alloc: Global, shape: &Shape) -> Result<Shape, AllocError>
    ensures { IfOk result (λ s. s ≡ shape.now) }
{
    match shape {
        Shape::Integer => Ok(Shape::Integer),
        Shape::Boolean => Ok(Shape::Boolean),
        Shape::Text => Ok(Shape::Text),
        Shape::Sequence(x) => Ok(Shape::Sequence(Boxed::new(alloc, copy_shape(alloc, x.get())?)?)),
        Shape::Dictionary(k, x) => {
            let key = copy_shape(alloc, k.get())?;
            let value = copy_shape(alloc, x.get())?;
            Ok(Shape::Dictionary(Boxed::new(alloc, key)?, Boxed::new(alloc, value)?))
        }
        Shape::Event(n) => Ok(Shape::Event(*n)),
        Shape::Context => Ok(Shape::Context),
        Shape::Listener => Ok(Shape::Listener),
    }
}
