ghost use Rattle.std.specs.Prelude.{◌≡◌, ◌≤◌, ⊤, pos, neg_ℤ, MatchOption};
ghost use Rattle.evt_text.specs.Reading.{digits_from, number_at, integer_at};

use crate::parts::{behind_sign, digit_at};

fn digits_from(limit: u64, first: u64, text: &str) -> (u64, &str)
    requires { first ≤ limit }
    ensures read { digits_from limit first text.now ≡ (result.0, result.1.now) }
    ensures small { result.0 ≤ limit }
{
    let mut number = first;
    let mut rest = text;
    'digits: while let Some((digit, others)) = digit_at(rest) {
        let longer = u128::from(number) * 10 + u128::from(digit);
        if longer > u128::from(limit) {
            return (number, rest);
        }
        number = longer as u64;
        rest = others;
    }
    (number, rest)
}

/// The number of one digit or more, as long as it is within the limit, and what follows them.
#[tactic(auto, unfolding(crate::specs::Reading::number_at))]
pub fn number_at(limit: u64, text: &str) -> Option<(u64, &str)>
    requires { 9 ≤ limit }
    ensures read { MatchOption result (number_at limit text.now ≡ None) (λ r. number_at limit text.now ≡ Some (r.0, r.1.now)) }
    ensures small { MatchOption result ⊤ (λ r. r.0 ≤ limit) }
{
    let (digit, others) = digit_at(text)?;
    Some(digits_from(limit, digit, others))
}

fn negative(magnitude: u64) -> i64
    requires { magnitude ≤ 9223372036854775808 }
    ensures { result ≡ neg_ℤ (pos magnitude) }
{
    (-i128::from(magnitude)) as i64
}

fn positive(magnitude: u64) -> i64
    requires { magnitude ≤ 9223372036854775807 }
    ensures { result ≡ pos magnitude }
{
    magnitude as i64
}

/// The integer of 64 bits with the longest spelling in front, and what follows it.
#[tactic(auto, unfolding(crate::specs::Reading::integer_at))]
pub fn integer_at(text: &str) -> Option<(i64, &str)>
    ensures { MatchOption result (integer_at text.now ≡ None) (λ r. integer_at text.now ≡ Some (r.0, r.1.now)) }
{
    if let Some(digits) = behind_sign(text, '-') {
        let (magnitude, rest) = number_at(9_223_372_036_854_775_808, digits)?;
        return Some((negative(magnitude), rest));
    }
    let (magnitude, rest) = number_at(9_223_372_036_854_775_807, text)?;
    Some((positive(magnitude), rest))
}
