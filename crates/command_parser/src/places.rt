//! What a value is assigned to.

ghost use Rattle.std.specs.Prelude.{◌≡◌, ◌-◌, [], length, IfOk};
ghost use Rattle.grammar_forms.specs.Reader.{behind, within, many};
ghost use Rattle.primary_parser.specs.Tokens.{row_of};
ghost use Rattle.primary_parser.specs.Words as word;
ghost use Rattle.primary_parser.specs.Reader as token;
ghost use Rattle.command_parser.specs.Reading as read;

use crate::parts::expr;
use crate::word;
use epl_lexer::Token;
use epl_tree::{Boxed, Expr, List, Place, Suffix, SuffixNode, Suffixes, Text};
use primary_parser::token::{name_at, sign_at, spot_at};
use std::alloc::{AllocError, Global};

#[tactic(auto, unfolding(grammar_forms::specs::Reader::behind))]
fn field(alloc: Global, tokens: &[Token], at: usize) -> Result<Option<(Text, usize)>, AllocError>
    ensures { IfOk result (λ r. r ≡ behind (row_of tokens.now) word.point (token.name tokens.now) at) }
{
    let Some((_, at)) = sign_at(tokens, word::POINT, at) else {
        return Ok(None);
    };
    name_at(alloc, tokens, at)
}

#[tactic(auto, unfolding(grammar_forms::specs::Reader::within))]
fn index(alloc: Global, tokens: &[Token], at: usize) -> Result<Option<(Expr, usize)>, AllocError>
    ensures { IfOk result (λ r. r ≡ within (row_of tokens.now) word.bracket word.closing_bracket (read.expr tokens.now) at) }
{
    let Some((_, at)) = sign_at(tokens, word::BRACKET, at) else {
        return Ok(None);
    };
    let Some((index, at)) = expr(alloc, tokens, at)? else {
        return Ok(None);
    };
    let Some((_, end)) = sign_at(tokens, word::CLOSING_BRACKET, at) else {
        return Ok(None);
    };
    Ok(Some((index, end)))
}

#[tactic(auto, unfolding(crate::specs::Reading::step_node))]
fn step_node(
    alloc: Global,
    tokens: &[Token],
    at: usize,
) -> Result<Option<(SuffixNode, usize)>, AllocError>
    ensures { IfOk result (λ r. r ≡ read.step_node tokens.now at) }
{
    if let Some((name, end)) = field(alloc, tokens, at)? {
        return Ok(Some((SuffixNode::Field(name), end)));
    }
    let Some((index, end)) = index(alloc, tokens, at)? else {
        return Ok(None);
    };
    Ok(Some((SuffixNode::Index(Boxed::new(alloc, index)?), end)))
}

#[tactic(auto, unfolding(crate::specs::Reading::step_at))]
fn step(alloc: Global, tokens: &[Token], at: usize) -> Result<Option<(Suffix, usize)>, AllocError>
    ensures { IfOk result (λ r. r ≡ read.step_at tokens.now at) }
{
    let spot = spot_at(tokens, at);
    let Some((node, end)) = step_node(alloc, tokens, at)? else {
        return Ok(None);
    };
    Ok(Some((Suffix { spot, node }, end)))
}

#[tactic(auto, using(grammar_forms::proofs::Turns::turns))]
fn steps(alloc: Global, tokens: &[Token], from: usize) -> Result<(Suffixes, usize), AllocError>
    ensures { IfOk result (λ r. r ≡ many (read.step_at tokens.now) (length tokens.now - from) from []) }
{
    let mut found = List::new(alloc);
    let mut at = from;
    'items: for _turn in from..tokens.len() {
        let Some((item, next)) = step(alloc, tokens, at)? else {
            return Ok((found, at));
        };
        found.push(item)?;
        at = next;
    }
    Ok((found, at))
}

/// A variable, and the fields and indices behind it.
#[tactic(auto, unfolding(crate::specs::Reading::place))]
pub fn place(
    alloc: Global,
    tokens: &[Token],
    at: usize,
) -> Result<Option<(Place, usize)>, AllocError>
    ensures { IfOk result (λ r. r ≡ read.place tokens.now at) }
{
    let spot = spot_at(tokens, at);
    let Some((name, at)) = name_at(alloc, tokens, at)? else {
        return Ok(None);
    };
    let (steps, end) = steps(alloc, tokens, at)?;
    Ok(Some((Place { spot, name, steps }, end)))
}
