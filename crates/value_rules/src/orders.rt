ghost use Rattle.std.specs.Prelude.{◌≡◌};
ghost use Rattle.epl_values.specs.Order.{order_of};

use epl_values::Value;
use std::cmp::Ordering;

/// The order of two values of one scalar kind: integers by number, false before true, texts by bytes. Others are equal.
pub fn order(left: &Value, right: &Value) -> Ordering
    ensures { result ≡ order_of left.now right.now }
{
    match (left, right) {
        (Value::Integer(x), Value::Integer(y)) => x.cmp(y),
        (Value::Boolean(x), Value::Boolean(y)) => x.cmp(y),
        (Value::Text(x), Value::Text(y)) => x.as_str().cmp(y.as_str()),
        _ => Ordering::Equal,
    }
}
