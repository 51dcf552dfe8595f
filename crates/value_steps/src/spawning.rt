ghost use Rattle.std.specs.Prelude.{◌≡◌, ◌-◌, ◌^◌, map, min, sum_by, IfOk};
ghost use Rattle.epl_values.specs.Order.{KeysAscend};
ghost use Rattle.body_meaning.specs.Effects.{deadline_leaves, emptied, starting, taken_along};
ghost use Rattle.value_steps.specs.Emptied.{emptied_entry};
ghost use Rattle.value_steps.specs.Orderly.{AreOrderly, AreOrderlyPairs, IsOrderly};

use epl_values::{Items, List, Pair, Pairs, Text, Value, Values};
use std::alloc::{AllocError, Global};
use typed_program::{Duration, Term, Terms};

/// A value of its own, in which each listener is the empty one.
#[cycle(emptied)]
pub fn emptied(alloc: Global, value: &Value) -> Result<Value, AllocError>
    requires { IsOrderly value.now }
    ensures { IfOk result (λ v. v ≡ emptied value.now) }
{
    match value {
        Value::Integer(number) => Ok(Value::Integer(*number)),
        Value::Boolean(is) => Ok(Value::Boolean(*is)),
        Value::Text(text) => Ok(Value::Text(Text::of(alloc, text.as_str())?)),
        Value::Sequence(items) => Ok(Value::Sequence(emptied_items(alloc, items)?)),
        Value::Dictionary(pairs) => Ok(Value::Dictionary(emptied_pairs(alloc, pairs)?)),
        Value::Event(number, fields) => {
            Ok(Value::Event(*number, emptied_values(alloc, fields.as_slice())?))
        }
        Value::Context(slot) => Ok(Value::Context(*slot)),
        Value::NoContext => Ok(Value::NoContext),
        Value::Listener(_) => Ok(Value::Listener(0)),
    }
}

#[cycle(emptied)]
fn emptied_values(alloc: Global, values: &[Value]) -> Result<Values, AllocError>
    requires { AreOrderly values.now }
    ensures { IfOk result (λ v. v ≡ map emptied values.now) }
{
    let mut copies = List::new(alloc);
    for value in values {
        copies.push(emptied(alloc, value)?)?;
    }
    Ok(copies)
}

#[cycle(emptied)]
fn emptied_items(alloc: Global, items: &Items) -> Result<Items, AllocError>
    requires { AreOrderly items.now }
    ensures { IfOk result (λ v. v ≡ map emptied items.now) }
{
    let mut copies = Items::new(alloc);
    for at in 0..items.len() {
        copies.push(emptied(alloc, items.get(at))?)?;
    }
    Ok(copies)
}

#[cycle(emptied)]
fn emptied_pairs(alloc: Global, pairs: &Pairs) -> Result<Pairs, AllocError>
    requires order { KeysAscend pairs.now }
    requires parts { AreOrderlyPairs pairs.now }
    ensures { IfOk result (λ v. v ≡ map emptied_entry pairs.now) }
{
    let mut copies = Pairs::new(alloc);
    for at in 0..pairs.len() {
        let pair = pairs.get(at);
        let key = emptied(alloc, &pair.key)?;
        let value = emptied(alloc, &pair.value)?;
        copies.push(Pair { key, value })?;
    }
    Ok(copies)
}

/// What a new instance takes along: its arguments and then the globals, without listeners.
pub fn taken_along(
    alloc: Global,
    arguments: &Values,
    globals: &Values,
) -> Result<Values, AllocError>
    requires arguments { AreOrderly arguments.now }
    requires globals { AreOrderly globals.now }
    ensures { IfOk result (λ v. v ≡ taken_along arguments.now globals.now) }
{
    let mut along = emptied_values(alloc, arguments.as_slice())?;
    for global in globals.as_slice() {
        along.push(emptied(alloc, global)?)?;
    }
    Ok(along)
}

fn deadline_leaves(within: &Option<Duration>) -> u64
    ensures { result ≡ deadline_leaves within.now }
{
    match within {
        Some(_) => 1,
        None => 0,
    }
}

/// How many leaves begin where an event expression starts, or the greatest number where they are more.
#[cycle(starting)]
pub fn starting(term: &Term) -> u64
    ensures { result ≡ min (2 ^ 64 - 1) (starting term.now) }
{
    match term {
        Term::Followed(first, _) => starting(first.get()),
        Term::Or(first, rest) => starting(first.get()).saturating_add(starting_all(rest)),
        Term::Xor(first, rest) => starting(first.get()).saturating_add(starting_all(rest)),
        Term::And(first, rest) => starting(first.get()).saturating_add(starting_all(rest)),
        Term::All(part) => starting(part.get()),
        Term::Not(part) => starting(part.get()),
        Term::Group(part, within) => {
            deadline_leaves(within).saturating_add(starting(part.get()))
        }
        Term::Wait(_) => 1,
        Term::Template(_) => 1,
    }
}

#[cycle(starting)]
fn starting_all(terms: &Terms) -> u64
    ensures { result ≡ min (2 ^ 64 - 1) (sum_by starting terms.now) }
{
    let mut total: u64 = 0;
    for term in terms.as_slice() {
        total = total.saturating_add(starting(term));
    }
    total
}
