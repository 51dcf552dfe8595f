ghost use Rattle.std.specs.Prelude.{◌≡◌};
ghost use Rattle.body_meaning.specs.Values.{birth_of, integer_of, is_text, letters_of, natural, truth_of};

use epl_values::Value;

/// The number in a value; 0 in one of another kind.
pub fn integer(value: &Value) -> i64
    ensures { result ≡ integer_of value.now }
{
    match value {
        Value::Integer(number) => *number,
        _ => 0,
    }
}

/// The truth in a value; false in one of another kind.
pub fn truth(value: &Value) -> bool
    ensures { result ≡ truth_of value.now }
{
    match value {
        Value::Boolean(is) => *is,
        _ => false,
    }
}

/// The birth in a listener; 0 in a value of another kind.
pub fn birth(value: &Value) -> u64
    ensures { result ≡ birth_of value.now }
{
    match value {
        Value::Listener(birth) => *birth,
        _ => 0,
    }
}

/// Whether a value is a text.
pub fn is_text(value: &Value) -> bool
    ensures { result ≡ is_text value.now }
{
    matches!(value, Value::Text(_))
}

/// The text in a value; empty in one of another kind.
pub fn letters(value: &Value) -> &str
    ensures { result.now ≡ letters_of value.now }
{
    match value {
        Value::Text(text) => text.as_str(),
        _ => "",
    }
}

/// A number that isn't negative.
pub fn natural(number: i64) -> Option<usize>
    ensures { result ≡ natural number }
{
    if 0 <= number {
        Some(number as usize)
    } else {
        None
    }
}
