ghost use Rattle.std.specs.Prelude.{◌≡◌};
ghost use Rattle.body_meaning.specs.Values.{compared, holds};

use epl_tree::Comparison;
use epl_values::Value;
use std::cmp::Ordering;
use value_rules::order;

fn holds(comparison: Comparison, order: Ordering) -> bool
    ensures { result ≡ holds comparison order }
{
    match comparison {
        Comparison::Equal => order == Ordering::Equal,
        Comparison::NotEqual => order != Ordering::Equal,
        Comparison::Less => order == Ordering::Less,
        Comparison::LessEqual => order != Ordering::Greater,
        Comparison::Greater => order == Ordering::Greater,
        Comparison::GreaterEqual => order != Ordering::Less,
    }
}

/// Whether two scalars of one kind compare so.
pub fn compared(comparison: Comparison, left: &Value, right: &Value) -> Value
    ensures { result ≡ compared comparison left.now right.now }
{
    Value::Boolean(holds(comparison, order(left, right)))
}
