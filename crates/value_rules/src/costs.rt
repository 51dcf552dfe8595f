ghost use Rattle.std.specs.Prelude.{◌≡◌, ◌+◌, ◌-◌, ◌^◌, min, sum_by};
ghost use Rattle.value_rules.specs.Costs.{cost_of, pair_cost};

use epl_values::{Items, Pairs, Value};

/// What a value costs, or the greatest number where that is more: 1, 1 more for each full 64 bytes of a text, and
/// what its elements, keys, values or fields cost.
#[cycle(costs)]
pub fn cost(value: &Value) -> u64
    ensures { result ≡ min (2 ^ 64 - 1) (cost_of value.now) }
{
    match value {
        Value::Text(text) => 1 + text.len() as u64 / 64,
        Value::Sequence(items) => cost_with_items(items),
        Value::Dictionary(pairs) => cost_with_pairs(pairs),
        Value::Event(_, fields) => cost_with(fields.as_slice()),
        _ => 1,
    }
}

#[cycle(costs)]
fn cost_with(parts: &[Value]) -> u64
    ensures { result ≡ min (2 ^ 64 - 1) (1 + sum_by cost_of parts.now) }
{
    let mut total: u64 = 1;
    for part in parts {
        total = total.saturating_add(cost(part));
    }
    total
}

#[cycle(costs)]
fn cost_with_items(items: &Items) -> u64
    ensures { result ≡ min (2 ^ 64 - 1) (1 + sum_by cost_of items.now) }
{
    let mut total: u64 = 1;
    for at in 0..items.len() {
        total = total.saturating_add(cost(items.get(at)));
    }
    total
}

#[cycle(costs)]
fn cost_with_pairs(pairs: &Pairs) -> u64
    ensures { result ≡ min (2 ^ 64 - 1) (1 + sum_by pair_cost pairs.now) }
{
    let mut total: u64 = 1;
    for at in 0..pairs.len() {
        let pair = pairs.get(at);
        total = total
            .saturating_add(cost(&pair.key))
            .saturating_add(cost(&pair.value));
    }
    total
}
