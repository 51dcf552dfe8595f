ghost use Rattle.std.specs.Prelude.{◌≡◌};
ghost use Rattle.expr_rules.specs.Shapes.{is_known_reference};
ghost use Rattle.typed_program.specs.Shapes.{same, is_event, is_sequence, is_dictionary, is_channel};

use epl_values::Shape;
use type_table::is_reference;

/// Whether two shapes are the same.
pub fn is_same(left: &Shape, right: &Shape) -> bool
    ensures { result ≡ same left.now right.now }
{
    match (left, right) {
        (Shape::Integer, Shape::Integer) => true,
        (Shape::Boolean, Shape::Boolean) => true,
        (Shape::Text, Shape::Text) => true,
        (Shape::Sequence(x), Shape::Sequence(y)) => is_same(x.get(), y.get()),
        (Shape::Dictionary(k, x), Shape::Dictionary(l, y)) => {
            is_same(k.get(), l.get()) && is_same(x.get(), y.get())
        }
        (Shape::Event(n), Shape::Event(m)) => *n == *m,
        (Shape::Context, Shape::Context) => true,
        (Shape::Listener, Shape::Listener) => true,
        _ => false,
    }
}

pub fn is_known_reference(shape: &Option<Shape>) -> bool
    ensures { result ≡ is_known_reference shape.now }
{
    match shape {
        Some(shape) => is_reference(shape),
        None => false,
    }
}

#[tactic(auto, unfolding(typed_program::specs::Shapes::is_event))]
pub fn is_event(shape: &Shape) -> bool
    ensures { result ≡ is_event shape.now }
{
    match shape {
        Shape::Event(_) => true,
        _ => false,
    }
}

#[tactic(auto, unfolding(typed_program::specs::Shapes::is_sequence))]
pub fn is_sequence(shape: &Shape) -> bool
    ensures { result ≡ is_sequence shape.now }
{
    match shape {
        Shape::Sequence(_) => true,
        _ => false,
    }
}

#[tactic(auto, unfolding(typed_program::specs::Shapes::is_dictionary))]
pub fn is_dictionary(shape: &Shape) -> bool
    ensures { result ≡ is_dictionary shape.now }
{
    match shape {
        Shape::Dictionary(..) => true,
        _ => false,
    }
}

/// A text or a context.
#[tactic(auto, unfolding(typed_program::specs::Shapes::is_channel))]
pub fn is_channel(shape: &Shape) -> bool
    ensures { result ≡ is_channel shape.now }
{
    match shape {
        Shape::Text => true,
        Shape::Context => true,
        _ => false,
    }
}
