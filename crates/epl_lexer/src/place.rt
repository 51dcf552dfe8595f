//! Where tokens begin, and the spots of places.

ghost use Rattle.std.specs.Prelude.{◌≡◌, ◌<◌, ◌≤◌, length, slice_range};
ghost use Rattle.span_text.specs.Place.{place_of};
ghost use Rattle.epl_lexer.specs.Tokens.{start_of};

use crate::bytes::is_at;
use span_text::Spot;

/// Where the tokens of a text begin: behind its byte order mark, if it has one.
#[tactic(auto, unfolding(crate::specs::Tokens::start_of))]
pub(crate) fn start_of(text: &str) -> usize
    ensures start { result ≡ start_of text.now }
    ensures inside { result ≤ length text.now }
{
    if is_at(text, 0, 0xEF) && is_at(text, 1, 0xBB) && is_at(text, 2, 0xBF) {
        3
    } else {
        0
    }
}

/// The spot of the place `to`, counted from `start`, where that of `from` is known.
pub(crate) fn spot_past(text: &str, start: usize, spot: Spot, from: usize, to: usize) -> Spot
    requires spot { spot ≡ place_of (slice_range text.now start from) }
    requires order { (start ≤ from) × (from ≤ to) × (to ≤ length text.now) }
    requires small { length text.now < 4294967295 }
    ensures { result ≡ place_of (slice_range text.now start to) }
{
    let bytes = text.as_bytes();
    let mut spot = spot;
    let mut at = from;
    'bytes: while at < to {
        spot = spot.after(bytes[at]);
        at += 1;
    }
    spot
}
