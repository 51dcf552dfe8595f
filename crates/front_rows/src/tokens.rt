//! What the lexer reads.

use crate::expr_outline::put_quoted;
use crate::outcome::{put_number, put_spot, refused};
use anyhow::{Result, bail};
use epl_lexer::{KEYWORDS, Kind, SIGNS, Token, Tokens};
use epl_syntax::{LexFault, tokens_of, tokens_of_bytes};
use std::alloc::{AllocError, Global};
use std::str;

/// The tokens of bytes that are a text.
pub fn text_tokens(alloc: Global, bytes: &[u8]) -> Result<String> {
    let Ok(text) = str::from_utf8(bytes) else {
        bail!("no text");
    };
    if text.len() >= 4294967295 {
        bail!("too long a text");
    }
    tokens_told(alloc, tokens_of(alloc, text))
}

/// The tokens of bytes.
pub fn byte_tokens(alloc: Global, bytes: &[u8]) -> Result<String> {
    tokens_told(alloc, read_tokens(alloc, bytes))
}

/// The tokens of bytes; there is no memory for too many of them.
pub fn read_tokens(alloc: Global, bytes: &[u8]) -> Result<Tokens, LexFault> {
    if bytes.len() >= 4294967295 {
        return Err(LexFault::Memory);
    }
    tokens_of_bytes(alloc, bytes)
}

fn tokens_told(alloc: Global, read: Result<Tokens, LexFault>) -> Result<String> {
    let tokens = match read {
        Ok(tokens) => tokens,
        Err(fault) => return no_tokens(alloc, fault),
    };
    let mut out = String::new(alloc);
    for token in tokens.as_slice() {
        put_token(&mut out, token)?;
    }
    Ok(out)
}

/// Where a text has no tokens.
pub fn no_tokens(alloc: Global, fault: LexFault) -> Result<String> {
    match fault {
        LexFault::Lex(spot) => refused(alloc, "lex", spot),
        LexFault::Memory => Err(AllocError)?,
    }
}

/// A token with its text, line and column, and bytes.
fn put_token(out: &mut String, token: &Token) -> Result<(), AllocError> {
    match &token.kind {
        Kind::Name(name) => put_words(out, "= name ", name.as_str())?,
        Kind::Integer(digits) => put_words(out, "= integer ", digits.as_str())?,
        Kind::Decimal(digits) => put_words(out, "= decimal ", digits.as_str())?,
        Kind::Quoted(value) => {
            out.push_str("= quoted ")?;
            put_quoted(out, value.as_str())?;
        }
        Kind::Keyword(number) => {
            put_number(out, "= keyword ", usize::from(*number))?;
            let word = KEYWORDS.get(usize::from(*number)).copied();
            put_words(out, " ", word.unwrap_or("none"))?;
        }
        Kind::Sign(number) => {
            put_number(out, "= sign ", usize::from(*number))?;
            let sign = SIGNS.get(usize::from(*number)).copied();
            put_words(out, " ", sign.unwrap_or("none"))?;
        }
        Kind::End => out.push_str("= end")?,
    }
    put_spot(out, " ", token.spot)?;
    put_number(out, " ", token.from as usize)?;
    put_number(out, "..", token.to as usize)?;
    out.push_str("\n")
}

fn put_words(out: &mut String, before: &str, word: &str) -> Result<(), AllocError> {
    out.push_str(before)?;
    out.push_str(word)
}
