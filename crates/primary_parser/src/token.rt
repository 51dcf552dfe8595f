//! One token at a place.

ghost use Rattle.std.specs.Prelude.{◌≡◌, IfOk};
ghost use Rattle.grammar_forms.specs.Reader.{item_of};
ghost use Rattle.primary_parser.specs.Tokens as row;
ghost use Rattle.primary_parser.specs.Tokens.{row_of, sign, keyword};
ghost use Rattle.primary_parser.specs.Reader as read;

use epl_lexer::{Kind, Token};
use epl_tree::{Spot, Text};
use std::alloc::{AllocError, Global};

/// The spot of the token at a place; line 0 and column 0 where there is none.
pub fn spot_at(tokens: &[Token], at: usize) -> Spot
    ensures { result ≡ row.spot_at tokens.now at }
{
    match tokens.get(at) {
        Some(token) => token.spot,
        None => Spot { line: 0, column: 0 },
    }
}

#[tactic(auto, unfolding(crate::specs::Reader::sign_reader))]
fn sign_read(tokens: &[Token], number: u8, at: usize) -> Option<((), usize)>
    ensures { result ≡ read.sign_reader tokens.now number at }
{
    match tokens.get(at) {
        Some(
            Token {
                kind: Kind::Sign(n),
                ..
            },
        ) if *n == number => Some(((), at + 1)),
        _ => None,
    }
}

#[tactic(auto, unfolding(crate::specs::Reader::keyword_reader))]
fn keyword_read(tokens: &[Token], number: u8, at: usize) -> Option<((), usize)>
    ensures { result ≡ read.keyword_reader tokens.now number at }
{
    match tokens.get(at) {
        Some(
            Token {
                kind: Kind::Keyword(n),
                ..
            },
        ) if *n == number => Some(((), at + 1)),
        _ => None,
    }
}

/// The place behind the sign with a number, where it stands at a place.
#[tactic(auto, using(crate::proofs::Tokens::sign_item))]
pub fn sign_at(tokens: &[Token], number: u8, at: usize) -> Option<((), usize)>
    ensures { result ≡ item_of (row_of tokens.now) (sign number) at }
{
    sign_read(tokens, number, at)
}

/// The place behind the keyword with a number, where it stands at a place.
#[tactic(auto, using(crate::proofs::Tokens::keyword_item))]
pub fn keyword_at(tokens: &[Token], number: u8, at: usize) -> Option<((), usize)>
    ensures { result ≡ item_of (row_of tokens.now) (keyword number) at }
{
    keyword_read(tokens, number, at)
}

/// The letters of the name at a place, and the place behind it.
#[tactic(auto, unfolding(crate::specs::Reader::name))]
pub fn name_at(
    alloc: Global,
    tokens: &[Token],
    at: usize,
) -> Result<Option<(Text, usize)>, AllocError>
    ensures { IfOk result (λ r. r ≡ read.name tokens.now at) }
{
    match tokens.get(at) {
        Some(
            Token {
                kind: Kind::Name(text),
                ..
            },
        ) => Ok(Some((Text::of(alloc, text.as_str())?, at + 1))),
        _ => Ok(None),
    }
}

/// The digits of the integer at a place, and the place behind it.
#[tactic(auto, unfolding(crate::specs::Reader::integer))]
pub fn integer_at(
    alloc: Global,
    tokens: &[Token],
    at: usize,
) -> Result<Option<(Text, usize)>, AllocError>
    ensures { IfOk result (λ r. r ≡ read.integer tokens.now at) }
{
    match tokens.get(at) {
        Some(
            Token {
                kind: Kind::Integer(text),
                ..
            },
        ) => Ok(Some((Text::of(alloc, text.as_str())?, at + 1))),
        _ => Ok(None),
    }
}

/// The digits and the point of the decimal at a place, and the place behind it.
#[tactic(auto, unfolding(crate::specs::Reader::decimal))]
pub fn decimal_at(
    alloc: Global,
    tokens: &[Token],
    at: usize,
) -> Result<Option<(Text, usize)>, AllocError>
    ensures { IfOk result (λ r. r ≡ read.decimal tokens.now at) }
{
    match tokens.get(at) {
        Some(
            Token {
                kind: Kind::Decimal(text),
                ..
            },
        ) => Ok(Some((Text::of(alloc, text.as_str())?, at + 1))),
        _ => Ok(None),
    }
}

/// The value of the string at a place, and the place behind it.
#[tactic(auto, unfolding(crate::specs::Reader::quoted))]
pub fn quoted_at(
    alloc: Global,
    tokens: &[Token],
    at: usize,
) -> Result<Option<(Text, usize)>, AllocError>
    ensures { IfOk result (λ r. r ≡ read.quoted tokens.now at) }
{
    match tokens.get(at) {
        Some(
            Token {
                kind: Kind::Quoted(text),
                ..
            },
        ) => Ok(Some((Text::of(alloc, text.as_str())?, at + 1))),
        _ => Ok(None),
    }
}
