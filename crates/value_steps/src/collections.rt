ghost use Rattle.std.specs.List.{position};
ghost use Rattle.std.specs.Prelude.{◌≡◌, ◌<◌, ◌^◌, map, IfOk, IfSome};
ghost use Rattle.epl_values.specs.Order.{order_of};
ghost use Rattle.body_meaning.specs.Methods.{keys_of, place_number, place_of, size_of};
ghost use Rattle.body_meaning.specs.Values.{is_equal, items_of, pairs_of};

use epl_values::{Items, Pairs, Value, copy};
use std::alloc::{AllocError, Global};
use std::cmp::Ordering;
use value_rules::order;

fn is_same(left: &Value, right: &Value) -> bool
    ensures { result ≡ is_equal (order_of left.now right.now) }
{
    order(left, right) == Ordering::Equal
}

fn place_among(items: &Items, wanted: &Value) -> Option<usize>
    ensures place { result ≡ position (λ value. is_equal (order_of value wanted.now)) items.now }
    ensures few { IfSome result (λ n. n < 2 ^ 63) }
{
    for at in 0..items.len() {
        if is_same(items.get(at), wanted) {
            return Some(at);
        }
    }
    None
}

fn place_number(place: Option<usize>) -> i64
    requires { IfSome place (λ n. n < 2 ^ 63) }
    ensures { result ≡ place_number place }
{
    match place {
        Some(place) => place as i64,
        None => -1,
    }
}

/// The first place of a value in a sequence, or -1.
pub fn place_of(wanted: &Value, value: &Value) -> Value
    ensures { result ≡ place_of wanted.now value.now }
{
    match value {
        Value::Sequence(items) => Value::Integer(place_number(place_among(items, wanted))),
        _ => Value::Integer(-1),
    }
}

/// How many elements or entries a value has.
pub fn size_of(value: &Value) -> Value
    ensures { result ≡ size_of value.now }
{
    match value {
        Value::Sequence(items) => Value::Integer(items.len() as i64),
        Value::Dictionary(pairs) => Value::Integer(pairs.len() as i64),
        _ => Value::Integer(0),
    }
}

fn copy_keys(alloc: Global, pairs: &Pairs) -> Result<Items, AllocError>
    ensures { IfOk result (λ keys. keys ≡ map (λ pair. pair.key) pairs.now) }
{
    let mut keys = Items::new(alloc);
    for at in 0..pairs.len() {
        keys.push(copy(alloc, &pairs.get(at).key)?)?;
    }
    Ok(keys)
}

/// The keys of a dictionary, as a sequence of copies.
pub fn keys_of(alloc: Global, value: &Value) -> Result<Value, AllocError>
    ensures { IfOk result (λ keys. keys ≡ keys_of value.now) }
{
    match value {
        Value::Dictionary(pairs) => Ok(Value::Sequence(copy_keys(alloc, pairs)?)),
        _ => Ok(Value::Sequence(Items::new(alloc))),
    }
}
