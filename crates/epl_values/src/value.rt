ghost use Rattle.std.specs.Prelude.{◌≡◌, [], ◌∷◌, ◌++◌, IfOk};

use crate::Text;
use blocks::{Blocks, Ordered, Ranked};
use lists::List;
use std::alloc::{AllocError, Global};

/// A value of the language.
#[cycle(value)]
#[derive(Drop)]
pub enum Value {
    Integer(i64),
    Boolean(bool),
    Text(Text),
    Sequence(Items),
    Dictionary(Pairs),
    /// The number of its event type, and its fields in order.
    Event(u16, Values),
    /// The slot of a context.
    Context(u8),
    /// The default of a context.
    NoContext,
    /// The birth of a listener; 0 is the empty listener.
    Listener(u64),
}

/// An entry of a dictionary.
#[cycle(value)]
#[derive(Drop)]
pub struct Pair {
    pub key: Value,
    pub value: Value,
}

/// A few values, in order, as the fields of an event.
pub type Values = List<Value>;

/// The elements of a sequence, in order.
pub type Items = Blocks<Value>;

/// The entries of a dictionary, in ascending order of keys, each once.
pub type Pairs = Ordered<Pair>;

impl Ranked for Pair {
    ghost use Rattle.epl_values.specs.Order.{KeysAscend};

    ghost ascend = { KeysAscend };
}

/// A value of its own that is equal to this one.
#[cycle(copies)]
pub fn copy(alloc: Global, value: &Value) -> Result<Value, AllocError>
    ensures { IfOk result (λ v. v ≡ value.now) }
{
    match value {
        Value::Integer(number) => Ok(Value::Integer(*number)),
        Value::Boolean(is) => Ok(Value::Boolean(*is)),
        Value::Text(text) => Ok(Value::Text(Text::of(alloc, text.as_str())?)),
        Value::Sequence(items) => Ok(Value::Sequence(copy_items(alloc, items)?)),
        Value::Dictionary(pairs) => Ok(Value::Dictionary(copy_pairs(alloc, pairs)?)),
        Value::Event(number, fields) => {
            Ok(Value::Event(*number, copy_values(alloc, fields.as_slice())?))
        }
        Value::Context(slot) => Ok(Value::Context(*slot)),
        Value::NoContext => Ok(Value::NoContext),
        Value::Listener(birth) => Ok(Value::Listener(*birth)),
    }
}

#[cycle(copies)]
fn copy_values(alloc: Global, values: &[Value]) -> Result<Values, AllocError>
    ensures { IfOk result (λ v. v ≡ values.now) }
{
    let mut copies = List::new(alloc);
    for value in values {
        copies.push(copy(alloc, value)?)?;
    }
    Ok(copies)
}

#[cycle(copies)]
fn copy_items(alloc: Global, items: &Items) -> Result<Items, AllocError>
    ensures { IfOk result (λ v. v ≡ items.now) }
{
    let mut copies = Blocks::new(alloc);
    for at in 0..items.len() {
        copies.push(copy(alloc, items.get(at))?)?;
    }
    Ok(copies)
}

#[cycle(copies)]
fn copy_pairs(alloc: Global, pairs: &Pairs) -> Result<Pairs, AllocError>
    ensures { IfOk result (λ v. v ≡ pairs.now) }
{
    let mut copies = Blocks::new(alloc);
    for at in 0..pairs.len() {
        let pair = pairs.get(at);
        let key = copy(alloc, &pair.key)?;
        let value = copy(alloc, &pair.value)?;
        copies.push(Pair { key, value })?;
    }
    Ok(pairs.with_copies(copies))
}
