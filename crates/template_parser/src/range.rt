//! Sums that stand alone, and ranges between two of them.

ghost use Rattle.std.specs.Prelude.{◌≡◌, IfOk};
ghost use Rattle.grammar_forms.specs.Reader.{item_of, behind};
ghost use Rattle.primary_parser.specs.Tokens.{row_of, sign};
ghost use Rattle.primary_parser.specs.Words as word;
ghost use Rattle.template_parser.specs.Reading as read;

use crate::word;
use epl_lexer::Token;
use epl_tree::{Expr, Range, RangeEnd};
use expr_parser::{Part, expr_at};
use primary_parser::token::sign_at;
use std::alloc::{AllocError, Global};

/// The longest sum at a place, as an outermost expression, and the place behind it.
#[tactic(auto, unfolding(crate::specs::Reading::sum_at))]
pub(crate) fn sum_at(
    alloc: Global,
    tokens: &[Token],
    at: usize,
) -> Result<Option<(Expr, usize)>, AllocError>
    ensures { IfOk result (λ r. r ≡ read.sum_at tokens.now at) }
{
    expr_at(alloc, tokens, expr_parser::MAX_DEPTH, Part::Sum, at)
}

/// The sign that opens a range, and whether its lower end is closed.
#[tactic(auto, unfolding(crate::specs::Reading::opening))]
fn opening_at(tokens: &[Token], at: usize) -> Option<(bool, usize)>
    ensures { result ≡ read.opening tokens.now at }
{
    if let Some((_, end)) = sign_at(tokens, word::BRACKET, at) {
        return Some((true, end));
    }
    if let Some((_, end)) = sign_at(tokens, word::PARENTHESIS, at) {
        return Some((false, end));
    }
    None
}

/// The sign that closes a range, and whether its upper end is closed.
#[tactic(auto, unfolding(crate::specs::Reading::closing))]
fn closing_at(tokens: &[Token], at: usize) -> Option<(bool, usize)>
    ensures { result ≡ read.closing tokens.now at }
{
    if let Some((_, end)) = sign_at(tokens, word::CLOSING_BRACKET, at) {
        return Some((true, end));
    }
    if let Some((_, end)) = sign_at(tokens, word::CLOSING_PARENTHESIS, at) {
        return Some((false, end));
    }
    None
}

#[tactic(auto, unfolding(crate::specs::Reading::low))]
fn low_at(
    alloc: Global,
    tokens: &[Token],
    at: usize,
) -> Result<Option<(RangeEnd, usize)>, AllocError>
    ensures { IfOk result (λ r. r ≡ read.low tokens.now at) }
{
    let Some((closed, at)) = opening_at(tokens, at) else {
        return Ok(None);
    };
    let Some((bound, end)) = sum_at(alloc, tokens, at)? else {
        return Ok(None);
    };
    let low = RangeEnd { closed, bound };
    Ok(Some((low, end)))
}

#[tactic(auto, unfolding(crate::specs::Reading::high))]
fn high_at(
    alloc: Global,
    tokens: &[Token],
    at: usize,
) -> Result<Option<(RangeEnd, usize)>, AllocError>
    ensures { IfOk result (λ r. r ≡ read.high tokens.now at) }
{
    let Some((bound, at)) = sum_at(alloc, tokens, at)? else {
        return Ok(None);
    };
    let Some((closed, end)) = closing_at(tokens, at) else {
        return Ok(None);
    };
    let high = RangeEnd { closed, bound };
    Ok(Some((high, end)))
}

#[tactic(auto, unfolding(grammar_forms::specs::Reader::behind))]
fn high_behind_colon(
    alloc: Global,
    tokens: &[Token],
    at: usize,
) -> Result<Option<(RangeEnd, usize)>, AllocError>
    ensures { IfOk result (λ r. r ≡ behind (row_of tokens.now) word.colon (read.high tokens.now) at) }
{
    let Some((_, at)) = sign_at(tokens, word::COLON, at) else {
        return Ok(None);
    };
    high_at(alloc, tokens, at)
}

/// A range at a place, and the place behind it.
#[tactic(auto, unfolding(crate::specs::Reading::range))]
pub(crate) fn range_at(
    alloc: Global,
    tokens: &[Token],
    at: usize,
) -> Result<Option<(Range, usize)>, AllocError>
    ensures { IfOk result (λ r. r ≡ read.range tokens.now at) }
{
    let Some((low, at)) = low_at(alloc, tokens, at)? else {
        return Ok(None);
    };
    let Some((high, end)) = high_behind_colon(alloc, tokens, at)? else {
        return Ok(None);
    };
    Ok(Some((Range { low, high }, end)))
}
