ghost use Rattle.std.specs.Option.{option_copied};
ghost use Rattle.std.specs.Prelude.{◌≡◌, ◌<◌, ◌≤◌, length, is_some, slice_get, slice_set, IfErr, IfOk, OnErr, OnOk, Some};
ghost use Rattle.epl_values.specs.Order.{KeysAscend};
ghost use Rattle.epl_values.specs.declared.value.Value.TheVariants.{NoContext};
ghost use Rattle.body_meaning.specs.Paths.{at_key, entry, is_key, with_entry};
ghost use Rattle.value_steps.specs.Changed.{Leaves, without_key};
ghost use Rattle.value_steps.specs.Entries.{count_before, is_before, place_in};

use crate::trouble::Trouble;
use action_host::Fault;
use epl_values::{Pair, Pairs, Value, copy};
use std::alloc::{AllocError, Global};
use std::cmp::Ordering;
use value_rules::order;

fn is_before(pair: &Pair, key: &Value) -> bool
    ensures { result ≡ is_before key.now pair.now }
{
    order(&pair.key, key) == Ordering::Less
}

fn is_key(pair: &Pair, key: &Value) -> bool
    ensures { result ≡ is_key key.now pair.now }
{
    order(&pair.key, key) == Ordering::Equal
}

/// How many keys are lesser; they stand in front.
fn count_before(pairs: &Pairs, key: &Value) -> usize
    requires { KeysAscend pairs.now }
    ensures count { result ≡ count_before key.now pairs.now }
    ensures within { result ≤ length pairs.now }
{
    let mut low = 0;
    let mut high = pairs.len();
    while low < high {
        let middle = low + (high - low) / 2;
        if is_before(pairs.get(middle), key) {
            low = middle + 1;
        } else {
            high = middle;
        }
    }
    low
}

/// The place of a key, or that where it would be put.
pub fn place_in(pairs: &Pairs, key: &Value) -> Result<usize, usize>
    requires { KeysAscend pairs.now }
    ensures value { result ≡ place_in key.now pairs.now }
    ensures there { IfOk result (λ at. at < length pairs.now) }
    ensures between { IfErr result (λ at. at ≤ length pairs.now) }
{
    let at = count_before(pairs, key);
    if at < pairs.len() && is_key(pairs.get(at), key) {
        Ok(at)
    } else {
        Err(at)
    }
}

/// The value at a key.
pub fn at_key<'p>(pairs: &'p Pairs, key: &Value) -> Option<&'p Value>
    requires { KeysAscend pairs.now }
    ensures { option_copied result ≡ at_key key.now pairs.now }
{
    match place_in(pairs, key) {
        Ok(at) => Some(&pairs.get(at).value),
        Err(_) => None,
    }
}

/// Whether a key is there.
pub fn has_key(pairs: &Pairs, key: &Value) -> bool
    requires { KeysAscend pairs.now }
    ensures { result ≡ is_some (at_key key.now pairs.now) }
{
    match at_key(pairs, key) {
        Some(_) => true,
        None => false,
    }
}

/// Takes the entry at a place, and leaves a copy of its key there with no context.
pub fn take_entry(alloc: Global, pairs: &mut Pairs, at: usize) -> Result<Pair, AllocError>
    requires place { at < length pairs.old }
    requires order { KeysAscend pairs.old }
    ensures taken { IfOk result (λ pair. slice_get pairs.old at ≡ Some pair) }
    ensures left { IfOk result (λ pair. pairs.new ≡ slice_set pairs.old at (entry pair.key NoContext)) }
    ensures err { OnErr result (pairs.new ≡ pairs.old) }
{
    let key = copy(alloc, &pairs.get(at).key)?;
    let value = Value::NoContext;
    Ok(pairs.set(at, Pair { key, value }))
}

/// Puts a value at a key: in its place if the key is there, and else where the keys still ascend.
pub fn put_entry(
    alloc: Global,
    pairs: &mut Pairs,
    key: Value,
    value: Value,
) -> Result<(), AllocError>
    requires { KeysAscend pairs.old }
    ensures ok { OnOk result (pairs.new ≡ with_entry key value pairs.old) }
    ensures err { OnErr result (pairs.new ≡ pairs.old) }
{
    match place_in(pairs, &key) {
        Ok(at) => {
            let Pair { key, value: _old } = take_entry(alloc, pairs, at)?;
            let _hole = pairs.set(at, Pair { key, value });
            Ok(())
        }
        Err(at) => pairs.insert(at, Pair { key, value }),
    }
}

/// Takes out the entry of a key.
pub fn remove_entry(pairs: &mut Pairs, key: &Value) -> Result<(), Trouble>
    requires { KeysAscend pairs.old }
    ensures { Leaves result pairs.new pairs.old (without_key pairs.old key.now) }
{
    match place_in(pairs, key) {
        Ok(at) => {
            let _old = pairs.remove(at);
            Ok(())
        }
        Err(_) => Err(Trouble::Fault(Fault::MissingKey)),
    }
}
