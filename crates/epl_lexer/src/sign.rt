//! Signs.

ghost use Rattle.std.specs.Prelude.{◌≡◌, ◌+◌, ◌<◌, ◌≤◌, length, IfSome};
ghost use Rattle.epl_lexer.specs.Spelling.{sign_number, begins_comment};
ghost use Rattle.epl_lexer.specs.Reading as read;

use crate::bytes::is_at;
use crate::table::place_in;
use crate::token::SIGNS;

/// The number of the longest sign at a place, and where it ends; where a comment begins there is none.
#[tactic(auto, unfolding(crate::specs::Reading::sign))]
pub(crate) fn sign_at(text: &str, at: usize) -> Option<(u8, usize)>
    requires { at < length text.now }
    ensures sign { result ≡ read.sign text.now at }
    ensures inside { IfSome result (λ x. (at < x.1) × (x.1 ≤ length text.now)) }
{
    if begins_comment(text, at) {
        return None;
    }
    if let Some(found) = sign_of(text, at, 2) {
        return Some(found);
    }
    sign_of(text, at, 1)
}

/// The number of the sign of so many bytes at a place, and where it ends.
#[tactic(auto, unfolding(crate::specs::Reading::sign_of))]
fn sign_of(text: &str, at: usize, len: usize) -> Option<(u8, usize)>
    requires place { at < length text.now }
    requires some { (0 < len) × (len ≤ 2) }
    ensures sign { result ≡ read.sign_of text.now at len }
    ensures inside { IfSome result (λ x. (at < x.1) × (x.1 ≤ length text.now)) }
{
    let bytes = text.as_bytes();
    let end = at + len;
    if end > bytes.len() {
        return None;
    }
    let number = sign_number(&bytes[at..end])?;
    Some((number, end))
}

/// The number of a sign.
#[tactic(auto, unfolding(crate::specs::Spelling::sign_number))]
fn sign_number(word: &[u8]) -> Option<u8>
    ensures { result ≡ sign_number word.now }
{
    match place_in(&SIGNS, word) {
        Some(place) => Some(place as u8),
        None => None,
    }
}

/// Whether a comment begins at a place.
#[tactic(auto, using(crate::proofs::Sets::pairs))]
fn begins_comment(text: &str, at: usize) -> bool
    requires { at < length text.now }
    ensures { result ≡ begins_comment text.now at }
{
    is_at(text, at, b'/') && (is_at(text, at + 1, b'/') || is_at(text, at + 1, b'*'))
}
