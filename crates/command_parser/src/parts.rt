//! What statements and declarations are made of.

ghost use Rattle.std.specs.Prelude.{◌≡◌, IfOk};
ghost use Rattle.grammar_forms.specs.Rule.{has};
ghost use Rattle.grammar_forms.specs.Reader.{item_of};
ghost use Rattle.primary_parser.specs.Tokens.{row_of, keyword};
ghost use Rattle.command_parser.specs.Words as word;
ghost use Rattle.command_parser.specs.Reader.{before};
ghost use Rattle.command_parser.specs.Reading as read;

use crate::word;
use epl_lexer::Token;
use epl_tree::{Expr, Exprs, Name, Text, TypeExpr};
use expr_parser::{MAX_DEPTH, Part, arguments_at, expr_at, type_at};
use primary_parser::token::{keyword_at, name_at, sign_at, spot_at};
use std::alloc::{AllocError, Global};

/// An expression that stands alone.
#[tactic(auto, unfolding(crate::specs::Reading::expr))]
pub fn expr(alloc: Global, tokens: &[Token], at: usize) -> Result<Option<(Expr, usize)>, AllocError>
    ensures { IfOk result (λ r. r ≡ read.expr tokens.now at) }
{
    expr_at(alloc, tokens, MAX_DEPTH, Part::Whole, at)
}

/// A name with its spot.
#[tactic(auto, unfolding(crate::specs::Reading::name_read))]
pub fn name(alloc: Global, tokens: &[Token], at: usize) -> Result<Option<(Name, usize)>, AllocError>
    ensures { IfOk result (λ r. r ≡ read.name_read tokens.now at) }
{
    let spot = spot_at(tokens, at);
    let Some((text, end)) = name_at(alloc, tokens, at)? else {
        return Ok(None);
    };
    Ok(Some((Name { spot, text }, end)))
}

/// A type and a name.
#[tactic(auto, unfolding(crate::specs::Reading::typed))]
pub fn typed(
    alloc: Global,
    tokens: &[Token],
    at: usize,
) -> Result<Option<((TypeExpr, Name), usize)>, AllocError>
    ensures { IfOk result (λ r. r ≡ read.typed tokens.now at) }
{
    let Some((shape, at)) = type_at(alloc, tokens, MAX_DEPTH, at)? else {
        return Ok(None);
    };
    let Some((name, end)) = name(alloc, tokens, at)? else {
        return Ok(None);
    };
    Ok(Some(((shape, name), end)))
}

/// An expression and a `;`.
#[tactic(auto, unfolding(crate::specs::Reading::ended, crate::specs::Reader::before))]
pub fn ended(
    alloc: Global,
    tokens: &[Token],
    at: usize,
) -> Result<Option<(Expr, usize)>, AllocError>
    ensures { IfOk result (λ r. r ≡ read.ended tokens.now at) }
{
    let Some((value, at)) = expr(alloc, tokens, at)? else {
        return Ok(None);
    };
    let Some((_, end)) = sign_at(tokens, word::SEMICOLON, at) else {
        return Ok(None);
    };
    Ok(Some((value, end)))
}

/// A name and arguments in parentheses.
#[tactic(auto, unfolding(crate::specs::Reading::named_call))]
pub(crate) fn named_call(
    alloc: Global,
    tokens: &[Token],
    at: usize,
) -> Result<Option<((Text, Exprs), usize)>, AllocError>
    ensures { IfOk result (λ r. r ≡ read.named_call tokens.now at) }
{
    let Some((name, at)) = name_at(alloc, tokens, at)? else {
        return Ok(None);
    };
    let Some((args, end)) = arguments_at(alloc, tokens, at)? else {
        return Ok(None);
    };
    Ok(Some(((name, args), end)))
}

/// A keyword and a `;`.
#[tactic(auto, unfolding(crate::specs::Reader::before))]
pub(crate) fn word_at(tokens: &[Token], number: u8, at: usize) -> Option<((), usize)>
    ensures { result ≡ before (row_of tokens.now) word.semicolon (item_of (row_of tokens.now) (keyword number)) at }
{
    let (_, at) = keyword_at(tokens, number, at)?;
    let (_, end) = sign_at(tokens, word::SEMICOLON, at)?;
    Some(((), end))
}

/// Whether an `else` stands at a place.
#[tactic(auto, using(crate::proofs::Sees::item_there, crate::proofs::Sees::item_missing))]
pub fn sees_else(tokens: &[Token], at: usize) -> bool
    ensures { result ≡ has (row_of tokens.now) word.else_word at }
{
    match keyword_at(tokens, word::ELSE, at) {
        Some(_) => true,
        None => false,
    }
}
