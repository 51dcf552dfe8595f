ghost use Rattle.std.specs.Prelude.{◌≡◌, ◌∷◌, Ok};
ghost use Rattle.epl_values.specs.Order.{KeysAscend};
ghost use Rattle.epl_values.specs.declared.value.Value.{out-Value};
ghost use Rattle.body_meaning.specs.Methods.{added_in, appended_in, changed_by, cleared_in, first, removed_in, second};
ghost use Rattle.body_meaning.specs.Paths.{altered, put, stored};
ghost use Rattle.body_meaning.specs.Values.{natural};
ghost use Rattle.value_steps.specs.Changed.{Leaves, done_by, entry_altered, item_altered, place_altered, with_item, with_place, without_place};
ghost use Rattle.value_steps.specs.Orderly.{AreOrderly, AreOrderlyMoves, AreOrderlyPairs, IsOrderly};

use crate::entries::{place_in, put_entry, remove_entry, take_entry};
use crate::reading::{integer, natural};
use crate::trouble::Trouble;
use action_host::Fault;
use body_meaning::Move;
use epl_values::{Items, List, Pair, Pairs, Value, Values};
use std::alloc::Global;
use std::mem;
use typed_program::Method;

/// What is done to the value at the end of a path.
#[derive(Drop)]
pub enum Change {
    /// Puts a value at a part of it.
    Put(Move, Value),
    /// Calls a method with arguments.
    Call(Method, Values),
}

fn append(value: &mut Value, item: Value) -> Result<(), Trouble>
    ensures { Leaves result value.new value.old (Ok (appended_in item (out-Value value.old))) }
{
    match value {
        Value::Sequence(items) => Ok(items.push(item)?),
        _ => Ok(()),
    }
}

fn clear(alloc: Global, value: &mut Value) -> Result<(), Trouble>
    ensures { Leaves result value.new value.old (Ok (cleared_in (out-Value value.old))) }
{
    match value {
        Value::Sequence(items) => {
            *items = Items::new(alloc);
            Ok(())
        }
        Value::Dictionary(pairs) => {
            *pairs = Pairs::new(alloc);
            Ok(())
        }
        _ => Ok(()),
    }
}

fn put_item(items: &mut Items, number: usize, item: Value) -> Result<(), Trouble>
    ensures { Leaves result items.new items.old (with_item items.old number item) }
{
    if number < items.len() {
        let _old = items.set(number, item);
        Ok(())
    } else {
        Err(Trouble::Fault(Fault::IndexOutOfRange))
    }
}

fn put_in_fields(fields: &mut Values, number: usize, item: Value) -> Result<(), Trouble>
    ensures { Leaves result fields.new fields.old (with_item fields.old number item) }
{
    if number < fields.len() {
        let _old = fields.set(number, item);
        Ok(())
    } else {
        Err(Trouble::Fault(Fault::IndexOutOfRange))
    }
}

fn put_place(items: &mut Items, place: i64, item: Value) -> Result<(), Trouble>
    ensures { Leaves result items.new items.old (with_place items.old (natural place) item) }
{
    match natural(place) {
        Some(number) => put_item(items, number, item),
        None => Err(Trouble::Fault(Fault::IndexOutOfRange)),
    }
}

fn remove_place(items: &mut Items, place: i64) -> Result<(), Trouble>
    ensures { Leaves result items.new items.old (without_place items.old (natural place)) }
{
    match natural(place) {
        Some(number) if number < items.len() => {
            let _old = items.remove(number);
            Ok(())
        }
        _ => Err(Trouble::Fault(Fault::IndexOutOfRange)),
    }
}

fn remove(value: &mut Value, at: &Value) -> Result<(), Trouble>
    requires { IsOrderly value.old }
    ensures { Leaves result value.new value.old (removed_in at.now (out-Value value.old)) }
{
    match value {
        Value::Sequence(items) => remove_place(items, integer(at)),
        Value::Dictionary(pairs) => remove_entry(pairs, at),
        _ => Ok(()),
    }
}

fn add(alloc: Global, value: &mut Value, key: Value, item: Value) -> Result<(), Trouble>
    requires { IsOrderly value.old }
    ensures { Leaves result value.new value.old (Ok (added_in key item (out-Value value.old))) }
{
    match value {
        Value::Dictionary(pairs) => Ok(put_entry(alloc, pairs, key, item)?),
        _ => Ok(()),
    }
}

fn take_first(arguments: &mut Values) -> Value
    ensures value { result ≡ first arguments.old }
    ensures rest { first arguments.new ≡ second arguments.old }
{
    if arguments.len() == 0 {
        Value::NoContext
    } else {
        arguments.remove(0)
    }
}

/// Does what a method does to its object.
fn call(alloc: Global, value: &mut Value, method: Method, arguments: Values) -> Result<(), Trouble>
    requires { IsOrderly value.old }
    ensures { Leaves result value.new value.old (changed_by method arguments value.old) }
{
    let mut arguments = arguments;
    let first = take_first(&mut arguments);
    match method {
        Method::Append => append(value, first),
        Method::Remove => remove(value, &first),
        Method::Clear => clear(alloc, value),
        Method::Add => add(alloc, value, first, take_first(&mut arguments)),
        _ => Ok(()),
    }
}

fn put_field(value: &mut Value, number: u16, part: Value) -> Result<(), Trouble>
    ensures { Leaves result value.new value.old (put (Move.Field number) part value.old) }
{
    match value {
        Value::Event(_, fields) => put_in_fields(fields, usize::from(number), part),
        _ => Err(Trouble::Fault(Fault::IndexOutOfRange)),
    }
}

fn put_element(value: &mut Value, place: i64, part: Value) -> Result<(), Trouble>
    ensures { Leaves result value.new value.old (put (Move.Item place) part value.old) }
{
    match value {
        Value::Sequence(items) => put_place(items, place, part),
        _ => Err(Trouble::Fault(Fault::IndexOutOfRange)),
    }
}

fn put_value(alloc: Global, value: &mut Value, key: Value, part: Value) -> Result<(), Trouble>
    requires { IsOrderly value.old }
    ensures { Leaves result value.new value.old (put (Move.Key key) part value.old) }
{
    match value {
        Value::Dictionary(pairs) => Ok(put_entry(alloc, pairs, key, part)?),
        _ => Err(Trouble::Fault(Fault::IndexOutOfRange)),
    }
}

/// Puts a value at a part of another.
fn put(alloc: Global, value: &mut Value, to: Move, part: Value) -> Result<(), Trouble>
    requires { IsOrderly value.old }
    ensures { Leaves result value.new value.old (put to part value.old) }
{
    match to {
        Move::Field(number) => put_field(value, number, part),
        Move::Item(place) => put_element(value, place, part),
        Move::Key(key) => put_value(alloc, value, key, part),
    }
}

fn make(alloc: Global, value: &mut Value, change: Change) -> Result<(), Trouble>
    requires { IsOrderly value.old }
    ensures { Leaves result value.new value.old (done_by change value.old) }
{
    match change {
        Change::Put(to, part) => put(alloc, value, to, part),
        Change::Call(method, arguments) => call(alloc, value, method, arguments),
    }
}

#[cycle(changes)]
fn change_at(
    alloc: Global,
    value: &mut Value,
    moves: &[Move],
    change: Change,
) -> Result<(), Trouble>
    requires { IsOrderly value.old }
    ensures { Leaves result value.new value.old (altered moves.now (done_by change) value.old) }
{
    let Some((first, others)) = moves.split_first() else {
        return make(alloc, value, change);
    };
    match first {
        Move::Field(number) => { change_field(alloc, value, usize::from(*number), others, change) },
        Move::Item(place) => change_element(alloc, value, *place, others, change),
        Move::Key(key) => change_value(alloc, value, key, others, change),
    }
}

#[cycle(changes)]
fn change_field(
    alloc: Global,
    value: &mut Value,
    number: usize,
    moves: &[Move],
    change: Change,
) -> Result<(), Trouble>
    requires { IsOrderly value.old }
    ensures { Leaves result value.new value.old (altered (Move.Field number ∷ moves.now) (done_by change) value.old) }
{
    match mem::replace(value, Value::NoContext) {
        Value::Event(event, fields) => {
            let mut fields = fields;
            let answer = change_in_fields(alloc, &mut fields, number, moves, change);
            let _hole = mem::replace(value, Value::Event(event, fields));
            answer
        }
        other => {
            let _hole = mem::replace(value, other);
            Err(Trouble::Fault(Fault::IndexOutOfRange))
        }
    }
}

#[cycle(changes)]
fn change_element(
    alloc: Global,
    value: &mut Value,
    place: i64,
    moves: &[Move],
    change: Change,
) -> Result<(), Trouble>
    requires { IsOrderly value.old }
    ensures { Leaves result value.new value.old (altered (Move.Item place ∷ moves.now) (done_by change) value.old) }
{
    match mem::replace(value, Value::NoContext) {
        Value::Sequence(items) => {
            let mut items = items;
            let answer = change_place(alloc, &mut items, place, moves, change);
            let _hole = mem::replace(value, Value::Sequence(items));
            answer
        }
        other => {
            let _hole = mem::replace(value, other);
            Err(Trouble::Fault(Fault::IndexOutOfRange))
        }
    }
}

#[cycle(changes)]
fn change_value(
    alloc: Global,
    value: &mut Value,
    key: &Value,
    moves: &[Move],
    change: Change,
) -> Result<(), Trouble>
    requires { IsOrderly value.old }
    ensures { Leaves result value.new value.old (altered (Move.Key key.now ∷ moves.now) (done_by change) value.old) }
{
    match mem::replace(value, Value::NoContext) {
        Value::Dictionary(pairs) => {
            let mut pairs = pairs;
            let answer = change_entry(alloc, &mut pairs, key, moves, change);
            let _hole = mem::replace(value, Value::Dictionary(pairs));
            answer
        }
        other => {
            let _hole = mem::replace(value, other);
            Err(Trouble::Fault(Fault::IndexOutOfRange))
        }
    }
}

#[cycle(changes)]
fn change_place(
    alloc: Global,
    items: &mut Items,
    place: i64,
    moves: &[Move],
    change: Change,
) -> Result<(), Trouble>
    requires { AreOrderly items.old }
    ensures { Leaves result items.new items.old (place_altered items.old (natural place) moves.now (done_by change)) }
{
    match natural(place) {
        Some(number) => change_item(alloc, items, number, moves, change),
        None => Err(Trouble::Fault(Fault::IndexOutOfRange)),
    }
}

#[cycle(changes)]
fn change_item(
    alloc: Global,
    items: &mut Items,
    number: usize,
    moves: &[Move],
    change: Change,
) -> Result<(), Trouble>
    requires { AreOrderly items.old }
    ensures { Leaves result items.new items.old (item_altered items.old number moves.now (done_by change)) }
{
    if items.len() <= number {
        return Err(Trouble::Fault(Fault::IndexOutOfRange));
    }
    let mut item = items.set(number, Value::NoContext);
    let result = change_at(alloc, &mut item, moves, change);
    let _hole = items.set(number, item);
    result
}

#[cycle(changes)]
fn change_in_fields(
    alloc: Global,
    fields: &mut Values,
    number: usize,
    moves: &[Move],
    change: Change,
) -> Result<(), Trouble>
    requires { AreOrderly fields.old }
    ensures { Leaves result fields.new fields.old (item_altered fields.old number moves.now (done_by change)) }
{
    if fields.len() <= number {
        return Err(Trouble::Fault(Fault::IndexOutOfRange));
    }
    let mut item = fields.set(number, Value::NoContext);
    let result = change_at(alloc, &mut item, moves, change);
    let _hole = fields.set(number, item);
    result
}

#[cycle(changes)]
fn change_entry(
    alloc: Global,
    pairs: &mut Pairs,
    key: &Value,
    moves: &[Move],
    change: Change,
) -> Result<(), Trouble>
    requires order { KeysAscend pairs.old }
    requires parts { AreOrderlyPairs pairs.old }
    ensures { Leaves result pairs.new pairs.old (entry_altered pairs.old key.now moves.now (done_by change)) }
{
    let Ok(at) = place_in(pairs, key) else {
        return Err(Trouble::Fault(Fault::MissingKey));
    };
    let Pair { key, value } = take_entry(alloc, pairs, at)?;
    let mut value = value;
    let result = change_at(alloc, &mut value, moves, change);
    let _hole = pairs.set(at, Pair { key, value });
    result
}

/// Stores a value at the end of a path of a value.
pub fn store(
    alloc: Global,
    value: &mut Value,
    moves: List<Move>,
    part: Value,
) -> Result<(), Trouble>
    requires whole { IsOrderly value.old }
    requires moved { AreOrderlyMoves moves }
    requires stored { IsOrderly part }
    ensures done { Leaves result value.new value.old (stored moves part value.old) }
    ensures order { IsOrderly value.new }
{
    let mut moves = moves;
    let Some(last) = moves.pop() else {
        *value = part;
        return Ok(());
    };
    change_at(alloc, value, moves.as_slice(), Change::Put(last, part))
}

/// Does what a method does to the value at the end of a path of a value.
pub fn alter(
    alloc: Global,
    value: &mut Value,
    moves: &[Move],
    method: Method,
    arguments: Values,
) -> Result<(), Trouble>
    requires whole { IsOrderly value.old }
    requires moved { AreOrderlyMoves moves.now }
    requires taken { AreOrderly arguments }
    ensures done { Leaves result value.new value.old (altered moves.now (changed_by method arguments) value.old) }
    ensures order { IsOrderly value.new }
{
    change_at(alloc, value, moves, Change::Call(method, arguments))
}
