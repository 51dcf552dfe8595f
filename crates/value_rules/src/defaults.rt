ghost use Rattle.std.specs.Prelude.{◌≡◌, map, slice_get, IfOk};
ghost use Rattle.value_rules.specs.Defaults.{default_by, default_event, default_of};
ghost use Rattle.event_types.specs.Types.{fields_of};

use epl_values::{EventShapes, Field, Items, List, Pairs, Shape, Text, Value, Values};
use std::alloc::{AllocError, Global};

/// The value that a variable or field of this shape has at first.
pub fn default_of(alloc: Global, shape: &Shape, types: &EventShapes) -> Result<Value, AllocError>
    ensures { IfOk result (λ v. v ≡ default_of types.now shape.now) }
{
    default_within(alloc, shape, types, types.len())
}

#[cycle(defaults)]
fn default_within(
    alloc: Global,
    shape: &Shape,
    types: &EventShapes,
    depth: usize,
) -> Result<Value, AllocError>
    ensures { IfOk result (λ v. v ≡ default_by (default_event depth types.now) shape.now) }
{
    match shape {
        Shape::Integer => Ok(Value::Integer(0)),
        Shape::Boolean => Ok(Value::Boolean(false)),
        Shape::Text => Ok(Value::Text(Text::new(alloc))),
        Shape::Sequence(_) => Ok(Value::Sequence(Items::new(alloc))),
        Shape::Dictionary(_, _) => Ok(Value::Dictionary(Pairs::new(alloc))),
        Shape::Event(number) => default_event(alloc, *number, types, depth),
        Shape::Context => Ok(Value::NoContext),
        Shape::Listener => Ok(Value::Listener(0)),
    }
}

#[cycle(defaults)]
fn default_event(
    alloc: Global,
    number: u16,
    types: &EventShapes,
    depth: usize,
) -> Result<Value, AllocError>
    ensures { IfOk result (λ v. v ≡ default_event depth types.now number) }
{
    let at = usize::from(number);
    if depth == 0 || at >= types.len() {
        return Ok(Value::Event(number, List::new(alloc)));
    }
    let fields = default_fields(alloc, types.get(at).fields.as_slice(), types, depth - 1)?;
    Ok(Value::Event(number, fields))
}

#[cycle(defaults)]
fn default_fields(
    alloc: Global,
    fields: &[Field],
    types: &EventShapes,
    depth: usize,
) -> Result<Values, AllocError>
    ensures { IfOk result (λ vs. vs ≡ map (λ field. default_by (default_event depth types.now) field.shape) fields.now) }
{
    let mut values = List::new(alloc);
    for field in fields {
        values.push(default_within(alloc, &field.shape, types, depth)?)?;
    }
    Ok(values)
}
