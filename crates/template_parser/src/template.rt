//! Templates of events.

ghost use Rattle.std.specs.Prelude.{◌≡◌, IfOk};
ghost use Rattle.grammar_forms.specs.Reader.{made, behind};
ghost use Rattle.primary_parser.specs.Tokens.{row_of, keyword};
ghost use Rattle.template_parser.specs.Templates as tree;
ghost use Rattle.template_parser.specs.Reading as read;

use crate::constraint::constraints_at;
use crate::duration::span_at;
use crate::word;
use epl_lexer::Token;
use epl_tree::{Constraints, List, Mode, Name, Template, TemplateClause, TemplateClauses, Text};
use primary_parser::token::{keyword_at, name_at, sign_at, spot_at};
use std::alloc::{AllocError, Global};

#[tactic(auto, unfolding(crate::specs::Reading::declared_name))]
fn declared_name(
    alloc: Global,
    tokens: &[Token],
    at: usize,
) -> Result<Option<(Name, usize)>, AllocError>
    ensures { IfOk result (λ r. r ≡ read.declared_name tokens.now at) }
{
    let spot = spot_at(tokens, at);
    let Some((text, end)) = name_at(alloc, tokens, at)? else {
        return Ok(None);
    };
    Ok(Some((Name { spot, text }, end)))
}

#[tactic(auto, unfolding(crate::specs::Reading::as_clause, grammar_forms::specs::Reader::behind))]
fn as_clause(
    alloc: Global,
    tokens: &[Token],
    at: usize,
) -> Result<Option<(TemplateClause, usize)>, AllocError>
    ensures { IfOk result (λ r. r ≡ read.as_clause tokens.now at) }
{
    let Some((_, at)) = keyword_at(tokens, word::AS, at) else {
        return Ok(None);
    };
    let Some((name, end)) = declared_name(alloc, tokens, at)? else {
        return Ok(None);
    };
    Ok(Some((TemplateClause::As(name), end)))
}

#[tactic(auto, unfolding(crate::specs::Reading::within_clause, grammar_forms::specs::Reader::behind))]
fn within_clause(
    alloc: Global,
    tokens: &[Token],
    at: usize,
) -> Result<Option<(TemplateClause, usize)>, AllocError>
    ensures { IfOk result (λ r. r ≡ read.within_clause tokens.now at) }
{
    let Some((_, at)) = keyword_at(tokens, word::WITHIN, at) else {
        return Ok(None);
    };
    let Some((duration, end)) = span_at(alloc, tokens, at)? else {
        return Ok(None);
    };
    Ok(Some((TemplateClause::Within(duration), end)))
}

fn clauses_of(
    alloc: Global,
    first: TemplateClause,
    second: Option<TemplateClause>,
) -> Result<TemplateClauses, AllocError>
    ensures { IfOk result (λ r. r ≡ tree.clauses_of (first, second)) }
{
    let mut clauses = List::new(alloc);
    clauses.push(first)?;
    if let Some(second) = second {
        clauses.push(second)?;
    }
    Ok(clauses)
}

#[tactic(auto, unfolding(crate::specs::Reading::as_first))]
fn as_first(
    alloc: Global,
    tokens: &[Token],
    at: usize,
) -> Result<Option<(TemplateClauses, usize)>, AllocError>
    ensures { IfOk result (λ r. r ≡ read.as_first tokens.now at) }
{
    let Some((first, at)) = as_clause(alloc, tokens, at)? else {
        return Ok(None);
    };
    match within_clause(alloc, tokens, at)? {
        Some((second, end)) => Ok(Some((clauses_of(alloc, first, Some(second))?, end))),
        None => Ok(Some((clauses_of(alloc, first, None)?, at))),
    }
}

#[tactic(auto, unfolding(crate::specs::Reading::within_first))]
fn within_first(
    alloc: Global,
    tokens: &[Token],
    at: usize,
) -> Result<Option<(TemplateClauses, usize)>, AllocError>
    ensures { IfOk result (λ r. r ≡ read.within_first tokens.now at) }
{
    let Some((first, at)) = within_clause(alloc, tokens, at)? else {
        return Ok(None);
    };
    match as_clause(alloc, tokens, at)? {
        Some((second, end)) => Ok(Some((clauses_of(alloc, first, Some(second))?, end))),
        None => Ok(Some((clauses_of(alloc, first, None)?, at))),
    }
}

#[tactic(auto, unfolding(crate::specs::Reading::clauses))]
fn clauses_at(
    alloc: Global,
    tokens: &[Token],
    at: usize,
) -> Result<Option<(TemplateClauses, usize)>, AllocError>
    ensures { IfOk result (λ r. r ≡ read.clauses tokens.now at) }
{
    if let Some((clauses, end)) = as_first(alloc, tokens, at)? {
        return Ok(Some((clauses, end)));
    }
    within_first(alloc, tokens, at)
}

#[tactic(auto, unfolding(crate::specs::Reading::name_and_constraints))]
fn name_and_constraints(
    alloc: Global,
    tokens: &[Token],
    at: usize,
) -> Result<Option<((Text, Constraints), usize)>, AllocError>
    ensures { IfOk result (λ r. r ≡ read.name_and_constraints tokens.now at) }
{
    let Some((name, at)) = name_at(alloc, tokens, at)? else {
        return Ok(None);
    };
    let Some((constraints, end)) = constraints_at(alloc, tokens, at)? else {
        return Ok(None);
    };
    Ok(Some(((name, constraints), end)))
}

fn template_of(
    alloc: Global,
    mode: Mode,
    event: Text,
    constraints: Constraints,
    clauses: Option<TemplateClauses>,
) -> Template
    ensures { result ≡ tree.template_of mode ((event, constraints), clauses) }
{
    let clauses = clauses.unwrap_or(List::new(alloc));
    Template {
        mode,
        event,
        constraints,
        clauses,
    }
}

/// A template of a mode at a place behind the mode's word, and the place behind it.
#[tactic(auto, unfolding(crate::specs::Reading::pattern_at))]
fn pattern_at(
    alloc: Global,
    tokens: &[Token],
    mode: Mode,
    at: usize,
) -> Result<Option<(Template, usize)>, AllocError>
    ensures { IfOk result (λ r. r ≡ made (tree.template_of mode) (read.pattern_at tokens.now at)) }
{
    let Some(((event, constraints), at)) = name_and_constraints(alloc, tokens, at)? else {
        return Ok(None);
    };
    match clauses_at(alloc, tokens, at)? {
        Some((clauses, end)) => {
            let template = template_of(alloc, mode, event, constraints, Some(clauses));
            Ok(Some((template, end)))
        }
        None => {
            let template = template_of(alloc, mode, event, constraints, None);
            Ok(Some((template, at)))
        }
    }
}

#[tactic(auto, unfolding(grammar_forms::specs::Reader::behind))]
fn pattern_behind(
    alloc: Global,
    tokens: &[Token],
    word: u8,
    mode: Mode,
    at: usize,
) -> Result<Option<(Template, usize)>, AllocError>
    ensures { IfOk result (λ r. r ≡ made (tree.template_of mode) (behind (row_of tokens.now) (keyword word) (read.pattern_at tokens.now) at)) }
{
    let Some((_, at)) = keyword_at(tokens, word, at) else {
        return Ok(None);
    };
    pattern_at(alloc, tokens, mode, at)
}

/// A template at a place, and the place behind it.
#[tactic(auto, unfolding(crate::specs::Reading::template_at))]
pub fn template_at(
    alloc: Global,
    tokens: &[Token],
    at: usize,
) -> Result<Option<(Template, usize)>, AllocError>
    ensures { IfOk result (λ r. r ≡ read.template_at tokens.now at) }
{
    if let Some((template, end)) = pattern_behind(
        alloc,
        tokens,
        word::UNMATCHED,
        Mode::Unmatched,
        at,
    )? {
        return Ok(Some((template, end)));
    }
    if let Some((template, end)) = pattern_behind(
        alloc,
        tokens,
        word::COMPLETED,
        Mode::Completed,
        at,
    )? {
        return Ok(Some((template, end)));
    }
    pattern_at(alloc, tokens, Mode::Ordinary, at)
}
