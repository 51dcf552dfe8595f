//! What makes a constraint a range or a named one.

ghost use Rattle.std.specs.Prelude.{◌≡◌, IfOk};
ghost use Rattle.grammar_forms.specs.Reader.{item_of, behind};
ghost use Rattle.primary_parser.specs.Tokens.{row_of};
ghost use Rattle.primary_parser.specs.Words as word;
ghost use Rattle.template_parser.specs.Reading as read;

use crate::range::sum_at;
use crate::test::test_at;
use crate::word;
use epl_lexer::Token;
use epl_tree::Expr;
use primary_parser::token::{keyword_at, name_at, sign_at};
use std::alloc::{AllocError, Global};

#[tactic(auto, unfolding(crate::specs::Reading::sum_and_colon))]
fn sum_and_colon(
    alloc: Global,
    tokens: &[Token],
    at: usize,
) -> Result<Option<((Expr, ()), usize)>, AllocError>
    ensures { IfOk result (λ r. r ≡ read.sum_and_colon tokens.now at) }
{
    let Some((sum, at)) = sum_at(alloc, tokens, at)? else {
        return Ok(None);
    };
    let Some((colon, end)) = sign_at(tokens, word::COLON, at) else {
        return Ok(None);
    };
    Ok(Some(((sum, colon), end)))
}

#[tactic(auto, unfolding(crate::specs::Reading::range_head, grammar_forms::specs::Reader::behind))]
fn range_head(alloc: Global, tokens: &[Token], at: usize) -> Result<Option<((), usize)>, AllocError>
    ensures { IfOk result (λ r. r ≡ read.range_head tokens.now at) }
{
    let Some((_, at)) = sign_at(tokens, word::PARENTHESIS, at) else {
        return Ok(None);
    };
    let Some((_, end)) = sum_and_colon(alloc, tokens, at)? else {
        return Ok(None);
    };
    Ok(Some(((), end)))
}

#[tactic(auto, unfolding(crate::specs::Reading::mark))]
fn mark_at(tokens: &[Token], at: usize) -> Option<((), usize)>
    ensures { result ≡ read.mark tokens.now at }
{
    if let Some((_, end)) = test_at(tokens, at) {
        return Some(((), end));
    }
    keyword_at(tokens, word::IN, at)
}

#[tactic(auto, unfolding(crate::specs::Reading::named_head))]
fn named_head(alloc: Global, tokens: &[Token], at: usize) -> Result<Option<((), usize)>, AllocError>
    ensures { IfOk result (λ r. r ≡ read.named_head tokens.now at) }
{
    let Some((_, at)) = name_at(alloc, tokens, at)? else {
        return Ok(None);
    };
    let Some((_, end)) = mark_at(tokens, at) else {
        return Ok(None);
    };
    Ok(Some(((), end)))
}

/// What makes a constraint a range or a named one, where it stands at a place.
#[tactic(auto, unfolding(crate::specs::Reading::head))]
pub(crate) fn head_at(
    alloc: Global,
    tokens: &[Token],
    at: usize,
) -> Result<Option<((), usize)>, AllocError>
    ensures { IfOk result (λ r. r ≡ read.head tokens.now at) }
{
    if let Some((_, end)) = sign_at(tokens, word::BRACKET, at) {
        return Ok(Some(((), end)));
    }
    if let Some((_, end)) = range_head(alloc, tokens, at)? {
        return Ok(Some(((), end)));
    }
    named_head(alloc, tokens, at)
}
