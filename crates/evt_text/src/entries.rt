ghost use Rattle.std.specs.Prelude.{◌≡◌, ◌<◌, ◌≤◌, length, IfErr, IfOk, OnOk};
ghost use Rattle.epl_values.specs.Order.{KeysAscend};
ghost use Rattle.evt_text.specs.Entries.{count_before, is_before, is_key, place_in, with_entry};

use epl_values::{Pair, Pairs, Value};
use std::alloc::AllocError;
use std::cmp::Ordering;
use value_rules::order;

fn is_before(pair: &Pair, key: &Value) -> bool
    ensures { result ≡ is_before key.now pair.now }
{
    order(&pair.key, key) == Ordering::Less
}

fn is_key(pair: &Pair, key: &Value) -> bool
    ensures { result ≡ is_key key.now pair.now }
{
    order(&pair.key, key) == Ordering::Equal
}

/// How many keys are lesser; they stand in front.
fn count_before(pairs: &Pairs, key: &Value) -> usize
    requires { KeysAscend pairs.now }
    ensures count { result ≡ count_before key.now pairs.now }
    ensures within { result ≤ length pairs.now }
{
    let mut low = 0;
    let mut high = pairs.len();
    while low < high {
        let middle = low + (high - low) / 2;
        if is_before(pairs.get(middle), key) {
            low = middle + 1;
        } else {
            high = middle;
        }
    }
    low
}

/// The place of a key, or that where it would be put.
fn place_in(pairs: &Pairs, key: &Value) -> Result<usize, usize>
    requires { KeysAscend pairs.now }
    ensures value { result ≡ place_in key.now pairs.now }
    ensures there { IfOk result (λ at. at < length pairs.now) }
    ensures between { IfErr result (λ at. at ≤ length pairs.now) }
{
    let at = count_before(pairs, key);
    if at < pairs.len() && is_key(pairs.get(at), key) {
        Ok(at)
    } else {
        Err(at)
    }
}

/// Puts a value at a key: in its place if the key is there, and else where the keys still ascend.
pub fn put_entry(pairs: &mut Pairs, key: Value, value: Value) -> Result<(), AllocError>
    requires { KeysAscend pairs.old }
    ensures put { OnOk result (pairs.new ≡ with_entry key value pairs.old) }
    ensures order { OnOk result (KeysAscend pairs.new) }
{
    match place_in(pairs, &key) {
        Ok(at) => {
            let Pair { key, value: _old } = pairs.remove(at);
            pairs.insert(at, Pair { key, value })
        }
        Err(at) => pairs.insert(at, Pair { key, value }),
    }
}
