//! Words and numbers.

ghost use Rattle.std.specs.Prelude.{◌≡◌, ◌<◌, ◌≤◌, length, true, IfOk, IfSome};
ghost use Rattle.grammar_forms.specs.Rule.{has};
ghost use Rattle.epl_lexer.specs.Bytes.{row_of, letters, digits};
ghost use Rattle.epl_lexer.specs.Spelling.{keyword_number};
ghost use Rattle.epl_lexer.specs.Reading as read;

use crate::bytes::{Class, is_at, run_end, stands};
use crate::table::place_in;
use crate::token::{KEYWORDS, Kind};
use epl_values::Text;
use std::alloc::{AllocError, Global};

/// The name or keyword at a place where a letter stands, and where it ends.
#[tactic(auto, unfolding(crate::specs::Reading::word))]
pub(crate) fn word_at(alloc: Global, text: &str, at: usize) -> Result<(Kind, usize), AllocError>
    requires { has (row_of text.now) letters at ≡ true }
    ensures word { IfOk result (λ r. r ≡ read.word text.now at) }
    ensures inside { IfOk result (λ r. (at < r.1) × (r.1 ≤ length text.now)) }
{
    let end = run_end(text, at, Class::Word);
    let word = &text[at..end];
    match keyword_number(word) {
        Some(number) => Ok((Kind::Keyword(number), end)),
        None => Ok((Kind::Name(Text::of(alloc, word)?), end)),
    }
}

/// The whole number or decimal at a place where a digit stands, and where it ends.
#[tactic(auto, unfolding(crate::specs::Reading::number))]
pub(crate) fn number_at(alloc: Global, text: &str, at: usize) -> Result<(Kind, usize), AllocError>
    requires { has (row_of text.now) digits at ≡ true }
    ensures number { IfOk result (λ r. r ≡ read.number text.now at) }
    ensures inside { IfOk result (λ r. (at < r.1) × (r.1 ≤ length text.now)) }
{
    let whole = run_end(text, at, Class::Digit);
    if !(is_at(text, whole, b'.') && stands(text, whole + 1, Class::Digit)) {
        return Ok((Kind::Integer(Text::of(alloc, &text[at..whole])?), whole));
    }
    let end = run_end(text, whole + 1, Class::Digit);
    Ok((Kind::Decimal(Text::of(alloc, &text[at..end])?), end))
}

#[tactic(auto, unfolding(crate::specs::Spelling::keyword_number))]
fn keyword_number(word: &str) -> Option<u8>
    ensures { result ≡ keyword_number word.now }
{
    match place_in(&KEYWORDS, word.as_bytes()) {
        Some(place) => Some(place as u8),
        None => None,
    }
}
