//! Event types.

ghost use Rattle.std.specs.Prelude.{◌≡◌, ◌-◌, [], length, IfOk};
ghost use Rattle.grammar_forms.specs.Reader.{many};
ghost use Rattle.decl_parser.specs.Declaring as read;

use command_parser::{name, typed, word};
use epl_lexer::Token;
use epl_tree::{EventDecl, FieldDecl, FieldDecls, List, Name};
use primary_parser::token::{keyword_at, sign_at, spot_at};
use std::alloc::{AllocError, Global};

#[tactic(auto, unfolding(crate::specs::Declaring::field, command_parser::specs::Reader::before))]
fn field(
    alloc: Global,
    tokens: &[Token],
    at: usize,
) -> Result<Option<(FieldDecl, usize)>, AllocError>
    ensures { IfOk result (λ r. r ≡ read.field tokens.now at) }
{
    let Some(((shape, name), at)) = typed(alloc, tokens, at)? else {
        return Ok(None);
    };
    let Some((_, end)) = sign_at(tokens, word::SEMICOLON, at) else {
        return Ok(None);
    };
    Ok(Some((FieldDecl { shape, name }, end)))
}

#[tactic(auto, using(grammar_forms::proofs::Turns::turns))]
fn more_fields(
    alloc: Global,
    tokens: &[Token],
    from: usize,
) -> Result<(FieldDecls, usize), AllocError>
    ensures { IfOk result (λ r. r ≡ many (read.field tokens.now) (length tokens.now - from) from []) }
{
    let mut found = List::new(alloc);
    let mut at = from;
    'items: for _turn in from..tokens.len() {
        let Some((item, next)) = field(alloc, tokens, at)? else {
            return Ok((found, at));
        };
        found.push(item)?;
        at = next;
    }
    Ok((found, at))
}

#[tactic(auto, unfolding(crate::specs::Declaring::fields, command_parser::specs::Reader::braced))]
fn fields(
    alloc: Global,
    tokens: &[Token],
    at: usize,
) -> Result<Option<(FieldDecls, usize)>, AllocError>
    ensures { IfOk result (λ r. r ≡ read.fields tokens.now at) }
{
    let Some((_, at)) = sign_at(tokens, word::BRACE, at) else {
        return Ok(None);
    };
    let (all, at) = more_fields(alloc, tokens, at)?;
    let Some((_, end)) = sign_at(tokens, word::CLOSING_BRACE, at) else {
        return Ok(None);
    };
    Ok(Some((all, end)))
}

#[tactic(auto, unfolding(crate::specs::Declaring::event_name, grammar_forms::specs::Reader::behind))]
fn event_name(
    alloc: Global,
    tokens: &[Token],
    at: usize,
) -> Result<Option<(Name, usize)>, AllocError>
    ensures { IfOk result (λ r. r ≡ read.event_name tokens.now at) }
{
    let Some((_, at)) = keyword_at(tokens, word::EVENT, at) else {
        return Ok(None);
    };
    name(alloc, tokens, at)
}

/// An event type.
#[tactic(auto, unfolding(crate::specs::Declaring::event_decl))]
pub(crate) fn event_decl(
    alloc: Global,
    tokens: &[Token],
    at: usize,
) -> Result<Option<(EventDecl, usize)>, AllocError>
    ensures { IfOk result (λ r. r ≡ read.event_decl tokens.now at) }
{
    let spot = spot_at(tokens, at);
    let Some((name, at)) = event_name(alloc, tokens, at)? else {
        return Ok(None);
    };
    let Some((fields, end)) = fields(alloc, tokens, at)? else {
        return Ok(None);
    };
    Ok(Some((EventDecl { spot, name, fields }, end)))
}
