ghost use Rattle.std.specs.Prelude.{◌≡◌, map, slice_get};
ghost use Rattle.std.specs.List.{list_all};
ghost use Rattle.value_rules.specs.Shapes.{event_fits, has, pair_has};

use epl_values::{EventShapes, Items, Pairs, Shape, Value, Values};

/// Whether a value has a shape over these event types.
#[cycle(shapes)]
pub fn has_shape(types: &EventShapes, value: &Value, shape: &Shape) -> bool
    ensures { result ≡ has types.now value.now shape.now }
{
    match (value, shape) {
        (Value::Integer(_), Shape::Integer) => true,
        (Value::Boolean(_), Shape::Boolean) => true,
        (Value::Text(_), Shape::Text) => true,
        (Value::Sequence(items), Shape::Sequence(element)) => all_have(types, items, element.get()),
        (Value::Dictionary(pairs), Shape::Dictionary(key, item)) => {
            pairs_have(types, pairs, key.get(), item.get())
        }
        (Value::Event(number, fields), Shape::Event(wanted)) => {
            *number == *wanted && fields_have(types, *number, fields)
        }
        (Value::Context(_) | Value::NoContext, Shape::Context) => true,
        (Value::Listener(_), Shape::Listener) => true,
        _ => false,
    }
}

#[cycle(shapes)]
fn all_have(types: &EventShapes, items: &Items, element: &Shape) -> bool
    ensures { result ≡ list_all (λ part. part element.now) (map (has types.now) items.now) }
{
    for at in 0..items.len() {
        if !has_shape(types, items.get(at), element) {
            return false;
        }
    }
    true
}

#[cycle(shapes)]
fn pairs_have(types: &EventShapes, pairs: &Pairs, key: &Shape, item: &Shape) -> bool
    ensures { result ≡ list_all (λ pair. pair key.now item.now) (map (pair_has types.now) pairs.now) }
{
    for at in 0..pairs.len() {
        let pair = pairs.get(at);
        if !has_shape(types, &pair.key, key) || !has_shape(types, &pair.value, item) {
            return false;
        }
    }
    true
}

#[cycle(shapes)]
fn fields_have(types: &EventShapes, number: u16, fields: &Values) -> bool
    ensures { result ≡ event_fits (map (has types.now) fields.now) (slice_get types.now number) }
{
    let at = usize::from(number);
    if at >= types.len() {
        return false;
    }
    let mut rest = types.get(at).fields.as_slice();
    for value in fields.as_slice() {
        let Some((field, others)) = rest.split_first() else {
            return false;
        };
        if !has_shape(types, value, &field.shape) {
            return false;
        }
        rest = others;
    }
    rest.is_empty()
}
