ghost use Rattle.std.specs.Prelude.{◌≡◌, ◌<◌, ◌≤◌, length, IfOk, IfSome};
ghost use Rattle.epl_lexer.specs.Reading as read;
ghost use Rattle.epl_lexer.specs.Tokens.{TellsTokens};

use crate::bytes::{Class, is_at, stands};
use crate::fault::LexFault;
use crate::place::{spot_past, start_of};
use crate::quoted::quoted_at;
use crate::sign::sign_at;
use crate::space::gap_end;
use crate::token::{Kind, Token, Tokens};
use crate::word::{number_at, word_at};
use span_text::Spot;
use std::alloc::{AllocError, Global};

/// The tokens of a text, the last of which is the end, or where it has none. Places are bytes of the text.
pub fn tokens_of(alloc: Global, text: &str) -> Result<Tokens, LexFault>
    requires { length text.now < 4294967295 }
    ensures { TellsTokens text.now result }
{
    let start = start_of(text);
    let mut tokens = Tokens::new(alloc);
    let mut at = gap_end(text, start);
    let mut spot = spot_past(text, start, Spot::start(), start, at);
    'tokens: while at < text.len() {
        let Some((kind, to)) = token_at(alloc, text, at)? else {
            return Err(LexFault::Lex(spot));
        };
        tokens.push(token(kind, at, to, spot))?;
        let next = gap_end(text, to);
        spot = spot_past(text, start, spot, at, next);
        at = next;
    }
    tokens.push(token(Kind::End, at, at, spot))?;
    Ok(tokens)
}

fn token(kind: Kind, from: usize, to: usize, spot: Spot) -> Token
    requires { (from < 4294967295) × (to < 4294967295) }
    ensures { result ≡ record { kind = kind; from = from; to = to; spot = spot } }
{
    Token {
        kind,
        from: from as u32,
        to: to as u32,
        spot,
    }
}

/// The longest token at a place, and where it ends.
#[tactic(auto, unfolding(crate::specs::Reading::token))]
pub(crate) fn token_at(
    alloc: Global,
    text: &str,
    at: usize,
) -> Result<Option<(Kind, usize)>, AllocError>
    requires { at < length text.now }
    ensures token { IfOk result (λ r. r ≡ read.token text.now at) }
    ensures inside { IfOk result (λ r. IfSome r (λ x. (at < x.1) × (x.1 ≤ length text.now))) }
{
    if stands(text, at, Class::Letter) {
        return Ok(Some(word_at(alloc, text, at)?));
    }
    if stands(text, at, Class::Digit) {
        return Ok(Some(number_at(alloc, text, at)?));
    }
    if is_at(text, at, b'"') {
        let Some((value, end)) = quoted_at(alloc, text, at)? else {
            return Ok(None);
        };
        return Ok(Some((Kind::Quoted(value), end)));
    }
    let Some((number, end)) = sign_at(text, at) else {
        return Ok(None);
    };
    Ok(Some((Kind::Sign(number), end)))
}
