//! Durations.

ghost use Rattle.std.specs.Prelude.{◌≡◌, IfOk};
ghost use Rattle.template_parser.specs.Reading as read;

use crate::range::sum_at;
use crate::word;
use epl_lexer::Token;
use epl_tree::{Duration, DurationNode};
use primary_parser::token::{decimal_at, sign_at, spot_at};
use std::alloc::{AllocError, Global};

#[tactic(auto, unfolding(crate::specs::Reading::duration_node))]
fn node_at(
    alloc: Global,
    tokens: &[Token],
    at: usize,
) -> Result<Option<(DurationNode, usize)>, AllocError>
    ensures { IfOk result (λ r. r ≡ read.duration_node tokens.now at) }
{
    if let Some((digits, end)) = decimal_at(alloc, tokens, at)? {
        return Ok(Some((DurationNode::Decimal(digits), end)));
    }
    let Some((seconds, end)) = sum_at(alloc, tokens, at)? else {
        return Ok(None);
    };
    Ok(Some((DurationNode::Seconds(seconds), end)))
}

#[tactic(auto, unfolding(crate::specs::Reading::duration_at))]
fn duration_at(
    alloc: Global,
    tokens: &[Token],
    at: usize,
) -> Result<Option<(Duration, usize)>, AllocError>
    ensures { IfOk result (λ r. r ≡ read.duration_at tokens.now at) }
{
    let spot = spot_at(tokens, at);
    let Some((node, end)) = node_at(alloc, tokens, at)? else {
        return Ok(None);
    };
    Ok(Some((Duration { spot, node }, end)))
}

/// A duration in parentheses at a place, and the place behind them.
#[tactic(auto, unfolding(crate::specs::Reading::span, grammar_forms::specs::Reader::within))]
pub fn span_at(
    alloc: Global,
    tokens: &[Token],
    at: usize,
) -> Result<Option<(Duration, usize)>, AllocError>
    ensures { IfOk result (λ r. r ≡ read.span tokens.now at) }
{
    let Some((_, at)) = sign_at(tokens, word::PARENTHESIS, at) else {
        return Ok(None);
    };
    let Some((duration, at)) = duration_at(alloc, tokens, at)? else {
        return Ok(None);
    };
    let Some((_, end)) = sign_at(tokens, word::CLOSING_PARENTHESIS, at) else {
        return Ok(None);
    };
    Ok(Some((duration, end)))
}
