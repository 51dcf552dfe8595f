ghost use Rattle.std.specs.Option.{option_map};
ghost use Rattle.std.specs.Prelude.{◌≡◌, ◌≤◌, ⊤, MatchOption};
ghost use Rattle.evt_text.specs.Reading.{behind_sign};
ghost use Rattle.evt_reader.specs.Steps.{are_blanks, behind_digits, behind_row, behind_zeros, is_closed, seconds_at, tenths_behind, time_at, timed};

use evt_text::{behind_blanks, behind_name, behind_sign, digit_at, number_at};

/// The most seconds of a time.
const MOST_SECONDS: u64 = 999_999_999_999;
/// The most digits of its seconds.
const MOST_DIGITS: usize = 12;

pub fn are_blanks(bytes: &[u8]) -> bool
    ensures { result ≡ are_blanks bytes.now }
{
    for byte in bytes {
        if !(*byte == b' ' || *byte == b'\t') {
            return false;
        }
    }
    true
}

fn behind_digits(text: &str) -> &str
    ensures { result.now ≡ behind_digits text.now }
{
    let mut rest = text;
    'digits: while let Some((_, others)) = digit_at(rest) {
        rest = others;
    }
    rest
}

fn behind_zeros(text: &str) -> &str
    ensures { result.now ≡ behind_zeros text.now }
{
    let mut rest = text;
    'zeros: while let Some(others) = behind_sign(rest, '0') {
        rest = others;
    }
    rest
}

/// What follows one digit or more.
#[tactic(auto, unfolding(crate::specs::Steps::behind_row))]
pub fn behind_row(text: &str) -> Option<&str>
    ensures { option_map (λ rest. rest.now) result ≡ behind_row text.now }
{
    let (_, others) = digit_at(text)?;
    Some(behind_digits(others))
}

/// Whether a bracket stands here, with blanks before and behind it, and nothing else.
#[tactic(auto, unfolding(crate::specs::Steps::is_closed))]
pub fn is_closed(text: &str) -> bool
    ensures { result ≡ is_closed text.now }
{
    let Some(rest) = behind_sign(behind_blanks(text), ')') else {
        return false;
    };
    are_blanks(rest.as_bytes())
}

#[tactic(auto, unfolding(crate::specs::Steps::seconds_at))]
fn seconds_at(text: &str) -> Option<(u64, &str)>
    ensures read { MatchOption result (seconds_at text.now ≡ None) (λ r. seconds_at text.now ≡ Some (r.0, r.1.now)) }
    ensures small { MatchOption result ⊤ (λ r. r.0 ≤ 999999999999) }
{
    let (seconds, rest) = number_at(MOST_SECONDS, text)?;
    if text.len() > rest.len() + MOST_DIGITS {
        return None;
    }
    Some((seconds, rest))
}

fn tenths_from(seconds: u64, text: &str) -> Option<(u64, &str)>
    requires { seconds ≤ 999999999999 }
    ensures { MatchOption result (tenths_behind seconds text.now (behind_sign 46 text.now) ≡ None) (λ r. tenths_behind seconds text.now (behind_sign 46 text.now) ≡ Some (r.0, r.1.now)) }
{
    let Some(fraction) = behind_sign(text, '.') else {
        return Some((seconds * 10, text));
    };
    let (tenths, others) = digit_at(fraction)?;
    Some((seconds * 10 + tenths, behind_zeros(others)))
}

#[tactic(auto, unfolding(crate::specs::Steps::time_at))]
fn time_at(text: &str) -> Option<(u64, &str)>
    ensures { MatchOption result (time_at text.now ≡ None) (λ r. time_at text.now ≡ Some (r.0, r.1.now)) }
{
    let (seconds, rest) = seconds_at(text)?;
    tenths_from(seconds, rest)
}

/// The time of a line `&TIME(..)`, in tenths of a second.
#[tactic(auto, unfolding(crate::specs::Steps::timed))]
pub fn timed(text: &str) -> Option<u64>
    ensures { result ≡ timed text.now }
{
    let inside = behind_name(text, "&TIME(")?;
    let (time, rest) = time_at(behind_blanks(inside))?;
    if !is_closed(rest) {
        return None;
    }
    Some(time)
}
