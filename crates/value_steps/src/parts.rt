ghost use Rattle.std.specs.Prelude.{◌≡◌, slice_get};
ghost use Rattle.body_meaning.specs.Paths.{at_place, or_fault, part};
ghost use Rattle.action_host.specs.declared.host.Fault.TheVariants.{IndexOutOfRange, MissingKey};
ghost use Rattle.epl_values.specs.Order.{KeysAscend};
ghost use Rattle.body_meaning.specs.Paths.{at_key};
ghost use Rattle.value_steps.specs.Orderly.{IsOrderly};
ghost use Rattle.value_steps.specs.Parts.{followed};
ghost use Rattle.value_steps.specs.Shown.{shown};

use crate::entries::at_key;
use crate::reading::natural;
use action_host::Fault;
use body_meaning::Move;
use epl_values::{Items, Pairs, Value, Values};

fn at_number(values: &Values, number: usize) -> Result<&Value, Fault>
    ensures { shown result ≡ or_fault IndexOutOfRange (slice_get values.now number) }
{
    if number < values.len() {
        Ok(values.get(number))
    } else {
        Err(Fault::IndexOutOfRange)
    }
}

fn item_at(items: &Items, number: usize) -> Result<&Value, Fault>
    ensures { shown result ≡ or_fault IndexOutOfRange (slice_get items.now number) }
{
    if number < items.len() {
        Ok(items.get(number))
    } else {
        Err(Fault::IndexOutOfRange)
    }
}

fn at_place(items: &Items, place: i64) -> Result<&Value, Fault>
    ensures { shown result ≡ or_fault IndexOutOfRange (at_place items.now place) }
{
    match natural(place) {
        Some(number) => item_at(items, number),
        None => Err(Fault::IndexOutOfRange),
    }
}

fn at_entry<'p>(pairs: &'p Pairs, key: &Value) -> Result<&'p Value, Fault>
    requires { KeysAscend pairs.now }
    ensures { shown result ≡ or_fault MissingKey (at_key key.now pairs.now) }
{
    match at_key(pairs, key) {
        Some(value) => Ok(value),
        None => Err(Fault::MissingKey),
    }
}

/// The part of a value that a step of a path leads to.
pub fn part<'v>(value: &'v Value, to: &Move) -> Result<&'v Value, Fault>
    requires { IsOrderly value.now }
    ensures { shown result ≡ part to.now value.now }
{
    match (to, value) {
        (Move::Field(number), Value::Event(_, fields)) => at_number(fields, usize::from(*number)),
        (Move::Item(place), Value::Sequence(items)) => at_place(items, *place),
        (Move::Key(key), Value::Dictionary(pairs)) => at_entry(pairs, key),
        _ => Err(Fault::IndexOutOfRange),
    }
}

/// The part of a value at the end of a path.
pub fn follow<'v>(value: &'v Value, moves: &[Move]) -> Result<&'v Value, Fault>
    requires { IsOrderly value.now }
    ensures { shown result ≡ followed moves.now value.now }
{
    let mut place = value;
    for to in moves {
        place = part(place, to)?;
    }
    Ok(place)
}
