//! Literals, and what needs no expression inside.

ghost use Rattle.std.specs.Prelude.{◌≡◌, IfOk};
ghost use Rattle.grammar_forms.specs.Reader.{item_of};
ghost use Rattle.primary_parser.specs.Grammar.{is_current};
ghost use Rattle.primary_parser.specs.Reading as read;

use crate::token::{integer_at, keyword_at, name_at, quoted_at, sign_at};
use crate::word;
use epl_lexer::Token;
use epl_tree::{ExprNode, Text};
use std::alloc::{AllocError, Global};

/// A number, a text or a truth value.
#[tactic(auto, unfolding(crate::specs::Reading::literal))]
pub(crate) fn literal_at(
    alloc: Global,
    tokens: &[Token],
    at: usize,
) -> Result<Option<(ExprNode, usize)>, AllocError>
    ensures { IfOk result (λ r. r ≡ read.literal tokens.now at) }
{
    if let Some((digits, end)) = integer_at(alloc, tokens, at)? {
        return Ok(Some((ExprNode::Integer(digits), end)));
    }
    if let Some((text, end)) = quoted_at(alloc, tokens, at)? {
        return Ok(Some((ExprNode::Quoted(text), end)));
    }
    if let Some((_, end)) = keyword_at(tokens, word::TRUE, at) {
        return Ok(Some((ExprNode::Boolean(true), end)));
    }
    if let Some((_, end)) = keyword_at(tokens, word::FALSE, at) {
        return Ok(Some((ExprNode::Boolean(false), end)));
    }
    Ok(None)
}

fn is_current(name: &Text) -> bool
    ensures { result ≡ is_current name.now }
{
    name.as_str() == "current"
}

#[tactic(auto, unfolding(crate::specs::Reading::current_word))]
fn current_word(
    alloc: Global,
    tokens: &[Token],
    at: usize,
) -> Result<Option<(Text, usize)>, AllocError>
    ensures { IfOk result (λ r. r ≡ read.current_word tokens.now at) }
{
    let Some((name, end)) = name_at(alloc, tokens, at)? else {
        return Ok(None);
    };
    if is_current(&name) {
        return Ok(Some((name, end)));
    }
    Ok(None)
}

#[tactic(auto, unfolding(crate::specs::Reading::empty_parentheses))]
fn empty_parentheses(tokens: &[Token], at: usize) -> Option<(((), ()), usize)>
    ensures { result ≡ read.empty_parentheses tokens.now at }
{
    let (_, at) = sign_at(tokens, word::PARENTHESIS, at)?;
    let (_, end) = sign_at(tokens, word::CLOSING_PARENTHESIS, at)?;
    Some((((), ()), end))
}

#[tactic(auto, unfolding(crate::specs::Reading::current_call))]
fn current_call(
    alloc: Global,
    tokens: &[Token],
    at: usize,
) -> Result<Option<((Text, ((), ())), usize)>, AllocError>
    ensures { IfOk result (λ r. r ≡ read.current_call tokens.now at) }
{
    let Some((name, at)) = current_word(alloc, tokens, at)? else {
        return Ok(None);
    };
    let Some((signs, end)) = empty_parentheses(tokens, at) else {
        return Ok(None);
    };
    Ok(Some(((name, signs), end)))
}

/// What follows `context` where the context itself is meant: `.current()`.
#[tactic(auto, unfolding(crate::specs::Reading::current, grammar_forms::specs::Reader::behind))]
pub(crate) fn current_at(
    alloc: Global,
    tokens: &[Token],
    at: usize,
) -> Result<Option<(ExprNode, usize)>, AllocError>
    ensures { IfOk result (λ r. r ≡ read.current tokens.now at) }
{
    let Some((_, at)) = sign_at(tokens, word::POINT, at) else {
        return Ok(None);
    };
    let Some((_, end)) = current_call(alloc, tokens, at)? else {
        return Ok(None);
    };
    Ok(Some((ExprNode::ContextCurrent, end)))
}
