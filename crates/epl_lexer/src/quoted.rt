//! Strings.

ghost use Rattle.std.specs.Prelude.{ℕ, ◌≡◌, ◌+◌, ◌<◌, ◌≤◌, [], ◌∷◌, length, true, false, IfOk, IfSome, MatchOption};
ghost use Rattle.grammar_forms.specs.Rule.{contains, has};
ghost use Rattle.epl_lexer.specs.Bytes.{row_of, quote, escape_bytes};
ghost use Rattle.epl_lexer.specs.Spelling.{escaped, IsEscape};
ghost use Rattle.epl_lexer.specs.Reading as read;

use crate::bytes::{Class, is_at, past};
use epl_values::Text;
use std::alloc::{AllocError, Global};

/// The value of the string at a place where a `"` stands, and where it ends; none where it is not finished.
pub(crate) fn quoted_at(
    alloc: Global,
    text: &str,
    at: usize,
) -> Result<Option<(Text, usize)>, AllocError>
    requires { has (row_of text.now) quote at ≡ true }
    ensures value { IfOk result (λ r. r ≡ read.quoted text.now at) }
    ensures inside { IfOk result (λ r. IfSome r (λ x. (at < x.1) × (x.1 ≤ length text.now))) }
{
    let mut value = Text::new(alloc);
    let mut from = at + 1;
    'pieces: while from < text.len() {
        let end = past(text, from, Class::Plain);
        if is_at(text, end, b'"') {
            value.push(&text[from..end])?;
            return Ok(Some((value, end + 1)));
        }
        let Some(character) = escape_at(text, end) else {
            return Ok(None);
        };
        value.push(&text[from..end])?;
        value.push(character)?;
        from = end + 2;
    }
    Ok(None)
}

/// What the escape at a place stands for.
#[tactic(auto, using(crate::proofs::Strings::escapes))]
fn escape_at(text: &str, at: usize) -> Option<&'static str>
    ensures { MatchOption result ((byte end : ℕ) → IsEscape text.now byte at end → ⊥)
        (λ s. (byte : ℕ) × IsEscape text.now byte at (at + 2) × (s.now ≡ byte ∷ [])) }
{
    if !is_at(text, at, b'\\') {
        return None;
    }
    if at + 1 >= text.len() {
        return None;
    }
    character_of(text.as_bytes()[at + 1])
}

/// What a byte behind a `\` stands for.
fn character_of(byte: u8) -> Option<&'static str>
    ensures { MatchOption result (contains byte escape_bytes ≡ false)
        (λ s. (contains byte escape_bytes ≡ true) × (s.now ≡ escaped byte ∷ [])) }
{
    match byte {
        b'"' => Some("\""),
        b'\\' => Some("\\"),
        b'n' => Some("\n"),
        b'r' => Some("\r"),
        b't' => Some("\t"),
        _ => None,
    }
}
