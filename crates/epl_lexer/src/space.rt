//! Blanks and comments.

ghost use Rattle.std.specs.Prelude.{◌≡◌, ◌+◌, ◌<◌, ◌≤◌, ℕ, length, true, false, MatchOption, IfSome};
ghost use Rattle.grammar_forms.specs.Rule.{has};
ghost use Rattle.epl_lexer.specs.Bytes.{row_of, newline};
ghost use Rattle.epl_lexer.specs.Spelling.{IsSpace, NoSpace, IsGap, closes};

use crate::bytes::{Class, is_at, stands};

/// Where the blanks and comments end that stand from a place on.
#[tactic(auto, using(crate::proofs::Spaces::gaps))]
pub(crate) fn gap_end(text: &str, from: usize) -> usize
    requires { from ≤ length text.now }
    ensures gap { IsGap text.now from result }
    ensures ended { NoSpace text.now result }
    ensures inside { (from ≤ result) × (result ≤ length text.now) }
{
    let mut at = from;
    'spaces: while let Some(end) = space_end(text, at) {
        at = end;
    }
    at
}

/// Where the blank or comment ends that begins at a place.
#[tactic(auto, using(crate::proofs::Spaces::spaces))]
fn space_end(text: &str, at: usize) -> Option<usize>
    ensures space { MatchOption result (NoSpace text.now at) (λ end. IsSpace text.now tt at end) }
    ensures inside { IfSome result (λ end. (at < end) × (end ≤ length text.now)) }
{
    if stands(text, at, Class::Blank) {
        return Some(at + 1);
    }
    if !is_at(text, at, b'/') {
        return None;
    }
    if is_at(text, at + 1, b'/') {
        return Some(line_end(text, at + 2));
    }
    if !is_at(text, at + 1, b'*') {
        return None;
    }
    let last = close_of(text, at + 2)?;
    Some(last + 2)
}

/// Where the line ends on which a place stands: before its newline, or at the end of the text.
#[tactic(auto, using(crate::proofs::Spaces::walks))]
fn line_end(text: &str, from: usize) -> usize
    requires { from ≤ length text.now }
    ensures inside { (from ≤ result) × (result ≤ length text.now) }
    ensures line { (i : ℕ) → from ≤ i → i < result → has (row_of text.now) newline i ≡ false }
    ensures stop { result < length text.now → has (row_of text.now) newline result ≡ true }
{
    let mut at = from;
    'bytes: while at < text.len() && !is_at(text, at, b'\n') {
        at += 1;
    }
    at
}

/// The first place from which on `*/` stands.
#[tactic(auto, using(crate::proofs::Spaces::walks))]
fn close_of(text: &str, from: usize) -> Option<usize>
    ensures first { MatchOption result ((i : ℕ) → from ≤ i → closes text.now i ≡ false)
        (λ last. (from ≤ last) × (closes text.now last ≡ true) × ((i : ℕ) → from ≤ i → i < last → closes text.now i ≡ false)) }
    ensures inside { IfSome result (λ last. last + 2 ≤ length text.now) }
{
    let mut at = from;
    'bytes: while at < text.len() {
        if is_at(text, at, b'*') && is_at(text, at + 1, b'/') {
            return Some(at);
        }
        at += 1;
    }
    None
}
