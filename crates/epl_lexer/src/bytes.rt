//! Bytes at places of a text.

ghost use Rattle.std.specs.Prelude.{◌≡◌, ◌≢◌, ◌-◌, ◌<◌, ◌≤◌, [], ◌∷◌, length, true};
ghost use Rattle.std.specs.Str.{IsCharBoundary};
ghost use Rattle.grammar_forms.specs.Rule.{has, contains};
ghost use Rattle.grammar_forms.specs.Reader.{run_end};
ghost use Rattle.epl_lexer.specs.Bytes.{row_of};
ghost use Rattle.epl_lexer.specs.Classes.{set_of};

/// A set of bytes of which tokens are made.
#[derive(Clone, Copy, Debug)]
pub(crate) enum Class {
    Blank,
    Letter,
    Digit,
    Word,
    /// What stands for itself in a string.
    Plain,
}

#[tactic(auto, using(crate::proofs::Sets::ranges), unfolding(crate::specs::Bytes::digits, crate::specs::Bytes::letters, crate::specs::Bytes::word_bytes, crate::specs::Bytes::plain_bytes))]
pub(crate) fn is_in(class: Class, byte: u8) -> bool
    ensures { result ≡ contains byte (set_of class) }
{
    match class {
        Class::Blank => byte == b' ' || byte == b'\t' || byte == b'\r' || byte == b'\n',
        Class::Letter => byte == b'_' || byte.is_ascii_alphabetic(),
        Class::Digit => byte.is_ascii_digit(),
        Class::Word => byte == b'_' || byte.is_ascii_alphabetic() || byte.is_ascii_digit(),
        Class::Plain => byte != b'"' && byte != b'\\' && byte != b'\n',
    }
}

/// Whether a byte of the class stands at a place; past the end none does.
#[tactic(auto, using(crate::proofs::Sets::places))]
pub(crate) fn stands(text: &str, at: usize, class: Class) -> bool
    ensures set { result ≡ has (row_of text.now) (set_of class) at }
    ensures inside { result ≡ true → at < length text.now }
{
    let bytes = text.as_bytes();
    at < bytes.len() && is_in(class, bytes[at])
}

/// Whether this very byte stands at a place.
#[tactic(auto, using(crate::proofs::Sets::places))]
pub(crate) fn is_at(text: &str, at: usize, byte: u8) -> bool
    ensures set { result ≡ has (row_of text.now) (byte ∷ []) at }
    ensures inside { result ≡ true → at < length text.now }
{
    let bytes = text.as_bytes();
    at < bytes.len() && bytes[at] == byte
}

/// Where the bytes of the class end that stand from a place on.
#[tactic(auto, using(grammar_forms::proofs::Turns::runs))]
pub(crate) fn past(text: &str, from: usize, class: Class) -> usize
    requires { from ≤ length text.now }
    ensures end { result ≡ run_end (row_of text.now) (set_of class) (length text.now - from) from }
    ensures inside { (from ≤ result) × (result ≤ length text.now) }
{
    let mut at = from;
    'bytes: while stands(text, at, class) {
        at += 1;
    }
    at
}

/// Where the bytes of a class end, all of ASCII, of which one stands at a place; the text may be cut before and behind them.
#[tactic(auto, using(crate::proofs::Cuts::cuts))]
pub(crate) fn run_end(text: &str, at: usize, class: Class) -> usize
    requires stands { has (row_of text.now) (set_of class) at ≡ true }
    requires ascii { class ≢ Class.Plain }
    ensures end { result ≡ run_end (row_of text.now) (set_of class) (length text.now - at) at }
    ensures inside { (at < result) × (result ≤ length text.now) }
    ensures cuts { IsCharBoundary text.now at × IsCharBoundary text.now result }
{
    past(text, at, class)
}
