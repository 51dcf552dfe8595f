//! Constraints on the fields of an event.

ghost use Rattle.std.specs.Prelude.{◌≡◌, ◌-◌, [], ◌∷◌, length, IfOk};
ghost use Rattle.grammar_forms.specs.Reader.{item_of, made, behind, many};
ghost use Rattle.primary_parser.specs.Tokens.{row_of};
ghost use Rattle.primary_parser.specs.Words as word;
ghost use Rattle.template_parser.specs.Words as event_word;
ghost use Rattle.template_parser.specs.Reading as read;

use crate::head::head_at;
use crate::range::{range_at, sum_at};
use crate::test::{order_at, test_at};
use crate::word;
use epl_lexer::Token;
use epl_tree::{Comparison, Constraint, ConstraintNode, Constraints, Expr, List, Range};
use primary_parser::token::{keyword_at, name_at, sign_at, spot_at};
use std::alloc::{AllocError, Global};

#[tactic(auto, unfolding(crate::specs::Reading::ordered))]
fn ordered_at(
    alloc: Global,
    tokens: &[Token],
    at: usize,
) -> Result<Option<(ConstraintNode, usize)>, AllocError>
    ensures { IfOk result (λ r. r ≡ read.ordered tokens.now at) }
{
    let Some((operator, at)) = order_at(tokens, at) else {
        return Ok(None);
    };
    let Some((bound, end)) = sum_at(alloc, tokens, at)? else {
        return Ok(None);
    };
    Ok(Some((ConstraintNode::Compares(operator, bound), end)))
}

#[tactic(auto, unfolding(crate::specs::Reading::tested))]
fn tested_at(
    alloc: Global,
    tokens: &[Token],
    at: usize,
) -> Result<Option<((Comparison, Expr), usize)>, AllocError>
    ensures { IfOk result (λ r. r ≡ read.tested tokens.now at) }
{
    let Some((operator, at)) = test_at(tokens, at) else {
        return Ok(None);
    };
    let Some((bound, end)) = sum_at(alloc, tokens, at)? else {
        return Ok(None);
    };
    Ok(Some(((operator, bound), end)))
}

#[tactic(auto, unfolding(crate::specs::Reading::named_test))]
fn named_test_at(
    alloc: Global,
    tokens: &[Token],
    at: usize,
) -> Result<Option<(ConstraintNode, usize)>, AllocError>
    ensures { IfOk result (λ r. r ≡ read.named_test tokens.now at) }
{
    let Some((field, at)) = name_at(alloc, tokens, at)? else {
        return Ok(None);
    };
    let Some(((operator, bound), end)) = tested_at(alloc, tokens, at)? else {
        return Ok(None);
    };
    let node = ConstraintNode::NamedCompares(field, operator, bound);
    Ok(Some((node, end)))
}

#[tactic(auto, unfolding(grammar_forms::specs::Reader::behind))]
fn range_behind_in(
    alloc: Global,
    tokens: &[Token],
    at: usize,
) -> Result<Option<(Range, usize)>, AllocError>
    ensures { IfOk result (λ r. r ≡ behind (row_of tokens.now) event_word.in_word (read.range tokens.now) at) }
{
    let Some((_, at)) = keyword_at(tokens, word::IN, at) else {
        return Ok(None);
    };
    range_at(alloc, tokens, at)
}

#[tactic(auto, unfolding(crate::specs::Reading::named_range))]
fn named_range_at(
    alloc: Global,
    tokens: &[Token],
    at: usize,
) -> Result<Option<(ConstraintNode, usize)>, AllocError>
    ensures { IfOk result (λ r. r ≡ read.named_range tokens.now at) }
{
    let Some((field, at)) = name_at(alloc, tokens, at)? else {
        return Ok(None);
    };
    let Some((range, end)) = range_behind_in(alloc, tokens, at)? else {
        return Ok(None);
    };
    Ok(Some((ConstraintNode::NamedLies(field, range), end)))
}

#[tactic(auto, unfolding(crate::specs::Reading::range_or_named))]
fn range_or_named_at(
    alloc: Global,
    tokens: &[Token],
    at: usize,
) -> Result<Option<(ConstraintNode, usize)>, AllocError>
    ensures { IfOk result (λ r. r ≡ read.range_or_named tokens.now at) }
{
    if let Some((range, end)) = range_at(alloc, tokens, at)? {
        return Ok(Some((ConstraintNode::Lies(range), end)));
    }
    if let Some((node, end)) = named_test_at(alloc, tokens, at)? {
        return Ok(Some((node, end)));
    }
    named_range_at(alloc, tokens, at)
}

#[tactic(auto, unfolding(crate::specs::Reading::plain))]
fn plain_at(
    alloc: Global,
    tokens: &[Token],
    at: usize,
) -> Result<Option<(ConstraintNode, usize)>, AllocError>
    ensures { IfOk result (λ r. r ≡ read.plain tokens.now at) }
{
    if let Some(_) = head_at(alloc, tokens, at)? {
        return Ok(None);
    }
    let Some((value, end)) = sum_at(alloc, tokens, at)? else {
        return Ok(None);
    };
    Ok(Some((ConstraintNode::Equals(value), end)))
}

#[tactic(auto, unfolding(crate::specs::Reading::constraint_node))]
fn node_at(
    alloc: Global,
    tokens: &[Token],
    at: usize,
) -> Result<Option<(ConstraintNode, usize)>, AllocError>
    ensures { IfOk result (λ r. r ≡ read.constraint_node tokens.now at) }
{
    if let Some((_, end)) = sign_at(tokens, word::TIMES, at) {
        return Ok(Some((ConstraintNode::Any, end)));
    }
    if let Some((node, end)) = ordered_at(alloc, tokens, at)? {
        return Ok(Some((node, end)));
    }
    if let Some((node, end)) = range_or_named_at(alloc, tokens, at)? {
        return Ok(Some((node, end)));
    }
    plain_at(alloc, tokens, at)
}

#[tactic(auto, unfolding(crate::specs::Reading::constraint_at))]
fn constraint_at(
    alloc: Global,
    tokens: &[Token],
    at: usize,
) -> Result<Option<(Constraint, usize)>, AllocError>
    ensures { IfOk result (λ r. r ≡ read.constraint_at tokens.now at) }
{
    let spot = spot_at(tokens, at);
    let Some((node, end)) = node_at(alloc, tokens, at)? else {
        return Ok(None);
    };
    Ok(Some((Constraint { spot, node }, end)))
}

#[tactic(auto, unfolding(grammar_forms::specs::Reader::behind))]
fn next_constraint(
    alloc: Global,
    tokens: &[Token],
    at: usize,
) -> Result<Option<(Constraint, usize)>, AllocError>
    ensures { IfOk result (λ r. r ≡ behind (row_of tokens.now) word.comma (read.constraint_at tokens.now) at) }
{
    let Some((_, at)) = sign_at(tokens, word::COMMA, at) else {
        return Ok(None);
    };
    constraint_at(alloc, tokens, at)
}

#[tactic(auto, using(grammar_forms::proofs::Turns::turns))]
fn more_constraints(
    alloc: Global,
    tokens: &[Token],
    first: Constraints,
    from: usize,
) -> Result<(Constraints, usize), AllocError>
    ensures { IfOk result (λ r. r ≡ many (behind (row_of tokens.now) word.comma (read.constraint_at tokens.now)) (length tokens.now - from) from first) }
{
    let mut found = first;
    let mut at = from;
    'items: for _turn in from..tokens.len() {
        let Some((item, next)) = next_constraint(alloc, tokens, at)? else {
            return Ok((found, at));
        };
        found.push(item)?;
        at = next;
    }
    Ok((found, at))
}

/// The first constraint alone, and the place behind it.
fn first_constraint(
    alloc: Global,
    tokens: &[Token],
    at: usize,
) -> Result<Option<(Constraints, usize)>, AllocError>
    ensures { IfOk result (λ r. r ≡ made (λ x. x ∷ []) (read.constraint_at tokens.now at)) }
{
    let Some((first, end)) = constraint_at(alloc, tokens, at)? else {
        return Ok(None);
    };
    let mut alone = List::new(alloc);
    alone.push(first)?;
    Ok(Some((alone, end)))
}

#[tactic(auto, unfolding(crate::specs::Reading::constraint_list, grammar_forms::specs::Reader::separated))]
fn constraint_list(
    alloc: Global,
    tokens: &[Token],
    at: usize,
) -> Result<Option<(Constraints, usize)>, AllocError>
    ensures { IfOk result (λ r. r ≡ read.constraint_list tokens.now at) }
{
    let Some((first, at)) = first_constraint(alloc, tokens, at)? else {
        return Ok(None);
    };
    let (all, end) = more_constraints(alloc, tokens, first, at)?;
    Ok(Some((all, end)))
}

/// Constraints in parentheses at a place, which may be none, and the place behind them.
#[tactic(auto, unfolding(crate::specs::Reading::constraints, primary_parser::specs::Reader::enclosed))]
pub(crate) fn constraints_at(
    alloc: Global,
    tokens: &[Token],
    at: usize,
) -> Result<Option<(Constraints, usize)>, AllocError>
    ensures { IfOk result (λ r. r ≡ read.constraints tokens.now at) }
{
    let Some((_, at)) = sign_at(tokens, word::PARENTHESIS, at) else {
        return Ok(None);
    };
    if let Some((all, at)) = constraint_list(alloc, tokens, at)? {
        let Some((_, end)) = sign_at(tokens, word::CLOSING_PARENTHESIS, at) else {
            return Ok(None);
        };
        return Ok(Some((all, end)));
    }
    let Some((_, end)) = sign_at(tokens, word::CLOSING_PARENTHESIS, at) else {
        return Ok(None);
    };
    Ok(Some((List::new(alloc), end)))
}
