ghost use Rattle.std.specs.Prelude.{◌≡◌, ◌++◌, ◌<◌, ◌≤◌, drop, length, take, IfOk, Ok, Err};
ghost use Rattle.std.specs.Str.{IsCharBoundary};
ghost use Rattle.body_meaning.specs.Values.{before_character, bounded, characters, from_character, goes_on, letters_of, part_of, substring};
ghost use Rattle.value_steps.specs.Answers.{Gives};

use crate::reading::{integer, letters};
use crate::trouble::Trouble;
use action_host::Fault;
use epl_values::{Text, Value};
use std::alloc::{AllocError, Global};

fn goes_on(byte: u8) -> bool
    ensures { result ≡ goes_on byte }
{
    128 <= byte && byte < 192
}

/// How many characters a text has.
pub fn characters(text: &str) -> usize
    ensures count { result ≡ characters text.now }
    ensures few { result ≤ length text.now }
{
    let mut count = 0;
    for byte in text.as_bytes() {
        if !goes_on(*byte) {
            count += 1;
        }
    }
    count
}

/// Where the character with this number begins; the end where there is none.
fn start_of(text: &str, number: usize) -> usize
    ensures within { IsCharBoundary text.now result }
    ensures front { take result text.now ≡ before_character number text.now }
    ensures rest { drop result text.now ≡ from_character number text.now }
{
    let mut before = number;
    let mut at = 0;
    for byte in text.as_bytes() {
        if !goes_on(*byte) {
            if before == 0 {
                return at;
            }
            before -= 1;
        }
        at += 1;
    }
    at
}

fn part_of(alloc: Global, text: &str, from: usize, to: usize) -> Result<Text, Trouble>
    ensures { Gives result (part_of text.now from to) }
{
    if to < from || characters(text) < to {
        return Err(Trouble::Fault(Fault::IndexOutOfRange));
    }
    let text = &text[..start_of(text, to)];
    Ok(Text::of(alloc, &text[start_of(text, from)..])?)
}

/// The characters of a text from one place up to before another.
pub fn substring(alloc: Global, value: &Value, from: &Value, to: &Value) -> Result<Text, Trouble>
    ensures { Gives result (substring value.now from.now to.now) }
{
    let (Ok(from), Ok(to)) = (usize::try_from(integer(from)), usize::try_from(integer(to))) else {
        return Err(Trouble::Fault(Fault::IndexOutOfRange));
    };
    part_of(alloc, letters(value), from, to)
}

/// The text of one value and then that of another.
pub fn joined(alloc: Global, left: &Value, right: &Value) -> Result<Text, AllocError>
    ensures { IfOk result (λ text. text ≡ letters_of left.now ++ letters_of right.now) }
{
    let mut whole = Text::of(alloc, letters(left))?;
    whole.push(letters(right))?;
    Ok(whole)
}

/// A text as a value, if it isn't longer than a text may be.
pub fn bounded(text: Text) -> Result<Value, Fault>
    ensures { result ≡ bounded text }
{
    if text.len() <= 1_048_576 {
        Ok(Value::Text(text))
    } else {
        Err(Fault::TextTooLong)
    }
}
