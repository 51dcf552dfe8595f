ghost use Rattle.std.specs.Prelude.{◌≡◌, ◌<◌, unsigned_abs};
ghost use Rattle.body_meaning.specs.Values.{arithmetic, calculated, fitting, negated};
ghost use Rattle.std.specs.Prelude.{int_div, int_rem, neg_ℤ, ◌+ℤ◌, ◌-ℤ◌, ◌*ℤ◌};

use crate::reading::integer;
use action_host::Fault;
use epl_tree::Operator;
use epl_values::Value;

fn sum(left: i64, right: i64) -> Result<i64, Fault>
    ensures { result ≡ fitting (left +ℤ right) }
{
    match left.checked_add(right) {
        Some(number) => Ok(number),
        None => Err(Fault::Overflow),
    }
}

fn difference(left: i64, right: i64) -> Result<i64, Fault>
    ensures { result ≡ fitting (left -ℤ right) }
{
    match left.checked_sub(right) {
        Some(number) => Ok(number),
        None => Err(Fault::Overflow),
    }
}

fn product(left: i64, right: i64) -> Result<i64, Fault>
    ensures { result ≡ fitting (left *ℤ right) }
{
    match left.checked_mul(right) {
        Some(number) => Ok(number),
        None => Err(Fault::Overflow),
    }
}

fn quotient(left: i64, right: i64) -> Result<i64, Fault>
    requires { 0 < unsigned_abs right }
    ensures { result ≡ fitting (int_div left right) }
{
    match left.checked_div(right) {
        Some(number) => Ok(number),
        None => Err(Fault::Overflow),
    }
}

fn remainder(left: i64, right: i64) -> Result<i64, Fault>
    requires { 0 < unsigned_abs right }
    ensures { result ≡ fitting (int_rem left right) }
{
    Ok(left.wrapping_rem(right))
}

fn opposite(number: i64) -> Result<i64, Fault>
    ensures { result ≡ fitting (neg_ℤ number) }
{
    match number.checked_neg() {
        Some(number) => Ok(number),
        None => Err(Fault::Overflow),
    }
}

fn number(operator: Operator, left: i64, right: i64) -> Result<i64, Fault>
    ensures { result ≡ arithmetic operator left right }
{
    match operator {
        Operator::Add => sum(left, right),
        Operator::Subtract => difference(left, right),
        Operator::Multiply => product(left, right),
        Operator::Divide if right == 0 => Err(Fault::DivisionByZero),
        Operator::Divide => quotient(left, right),
        Operator::Remainder if right == 0 => Err(Fault::DivisionByZero),
        Operator::Remainder => remainder(left, right),
    }
}

/// What an operator makes of two integers in 64 bits.
pub fn calculated(operator: Operator, left: &Value, right: &Value) -> Result<Value, Fault>
    ensures { result ≡ calculated operator left.now right.now }
{
    match number(operator, integer(left), integer(right)) {
        Ok(number) => Ok(Value::Integer(number)),
        Err(fault) => Err(fault),
    }
}

/// An integer with the other sign.
pub fn negated(value: &Value) -> Result<Value, Fault>
    ensures { result ≡ negated value.now }
{
    match opposite(integer(value)) {
        Ok(number) => Ok(Value::Integer(number)),
        Err(fault) => Err(fault),
    }
}
