//! Actions.

ghost use Rattle.std.specs.Prelude.{◌≡◌, ◌-◌, [], length, IfOk};
ghost use Rattle.grammar_forms.specs.Reader.{behind, many};
ghost use Rattle.primary_parser.specs.Tokens.{row_of};
ghost use Rattle.primary_parser.specs.Words.{comma};
ghost use Rattle.stmt_parser.specs.Reading.{stmt_at};
ghost use Rattle.decl_parser.specs.Declaring as read;

use command_parser::{name, typed, word};
use epl_lexer::Token;
use epl_tree::{ActionDecl, List, Name, Param, Params, Stmts, TypeExpr};
use expr_parser::{MAX_DEPTH, type_at};
use primary_parser::token::{keyword_at, sign_at, spot_at};
use std::alloc::{AllocError, Global};
use stmt_parser::stmt;

#[tactic(auto, unfolding(crate::specs::Declaring::param))]
fn param(alloc: Global, tokens: &[Token], at: usize) -> Result<Option<(Param, usize)>, AllocError>
    ensures { IfOk result (λ r. r ≡ read.param tokens.now at) }
{
    let Some(((shape, name), end)) = typed(alloc, tokens, at)? else {
        return Ok(None);
    };
    Ok(Some((Param { shape, name }, end)))
}

#[tactic(auto, unfolding(grammar_forms::specs::Reader::behind))]
fn next_param(
    alloc: Global,
    tokens: &[Token],
    at: usize,
) -> Result<Option<(Param, usize)>, AllocError>
    ensures { IfOk result (λ r. r ≡ behind (row_of tokens.now) comma (read.param tokens.now) at) }
{
    let Some((_, at)) = sign_at(tokens, word::COMMA, at) else {
        return Ok(None);
    };
    param(alloc, tokens, at)
}

#[tactic(auto, using(grammar_forms::proofs::Turns::turns))]
fn more_params(alloc: Global, tokens: &[Token], from: usize) -> Result<(Params, usize), AllocError>
    ensures { IfOk result (λ r. r ≡ many (behind (row_of tokens.now) comma (read.param tokens.now)) (length tokens.now - from) from []) }
{
    let mut found = List::new(alloc);
    let mut at = from;
    'items: for _turn in from..tokens.len() {
        let Some((item, next)) = next_param(alloc, tokens, at)? else {
            return Ok((found, at));
        };
        found.push(item)?;
        at = next;
    }
    Ok((found, at))
}

#[tactic(auto, unfolding(crate::specs::Declaring::param_list, grammar_forms::specs::Reader::separated))]
fn param_list(
    alloc: Global,
    tokens: &[Token],
    at: usize,
) -> Result<Option<(Params, usize)>, AllocError>
    ensures { IfOk result (λ r. r ≡ read.param_list tokens.now at) }
{
    let Some((first, at)) = param(alloc, tokens, at)? else {
        return Ok(None);
    };
    let (mut all, end) = more_params(alloc, tokens, at)?;
    all.insert(0, first)?;
    Ok(Some((all, end)))
}

#[tactic(auto, unfolding(crate::specs::Declaring::params, primary_parser::specs::Reader::enclosed))]
fn params(alloc: Global, tokens: &[Token], at: usize) -> Result<Option<(Params, usize)>, AllocError>
    ensures { IfOk result (λ r. r ≡ read.params tokens.now at) }
{
    let Some((_, at)) = sign_at(tokens, word::PARENTHESIS, at) else {
        return Ok(None);
    };
    if let Some((all, at)) = param_list(alloc, tokens, at)? {
        let Some((_, end)) = sign_at(tokens, word::CLOSING_PARENTHESIS, at) else {
            return Ok(None);
        };
        return Ok(Some((all, end)));
    }
    let Some((_, end)) = sign_at(tokens, word::CLOSING_PARENTHESIS, at) else {
        return Ok(None);
    };
    Ok(Some((List::new(alloc), end)))
}

#[tactic(auto, unfolding(crate::specs::Declaring::action_name, grammar_forms::specs::Reader::behind))]
fn action_name(
    alloc: Global,
    tokens: &[Token],
    at: usize,
) -> Result<Option<(Name, usize)>, AllocError>
    ensures { IfOk result (λ r. r ≡ read.action_name tokens.now at) }
{
    let Some((_, at)) = keyword_at(tokens, word::ACTION, at) else {
        return Ok(None);
    };
    name(alloc, tokens, at)
}

#[tactic(auto, unfolding(crate::specs::Declaring::named_params))]
fn named_params(
    alloc: Global,
    tokens: &[Token],
    at: usize,
) -> Result<Option<((Name, Params), usize)>, AllocError>
    ensures { IfOk result (λ r. r ≡ read.named_params tokens.now at) }
{
    let Some((name, at)) = action_name(alloc, tokens, at)? else {
        return Ok(None);
    };
    let Some((params, end)) = params(alloc, tokens, at)? else {
        return Ok(None);
    };
    Ok(Some(((name, params), end)))
}

#[tactic(auto, unfolding(crate::specs::Declaring::result_type, grammar_forms::specs::Reader::behind))]
fn result_type(
    alloc: Global,
    tokens: &[Token],
    at: usize,
) -> Result<Option<(TypeExpr, usize)>, AllocError>
    ensures { IfOk result (λ r. r ≡ read.result_type tokens.now at) }
{
    let Some((_, at)) = keyword_at(tokens, word::RETURNS, at) else {
        return Ok(None);
    };
    type_at(alloc, tokens, MAX_DEPTH, at)
}

/// An action up to its block.
#[tactic(auto, unfolding(crate::specs::Declaring::signature))]
pub(crate) fn signature(
    alloc: Global,
    tokens: &[Token],
    at: usize,
) -> Result<Option<(((Name, Params), Option<TypeExpr>), usize)>, AllocError>
    ensures { IfOk result (λ r. r ≡ read.signature tokens.now at) }
{
    let Some((named, at)) = named_params(alloc, tokens, at)? else {
        return Ok(None);
    };
    match result_type(alloc, tokens, at)? {
        Some((result, end)) => Ok(Some(((named, Some(result)), end))),
        None => Ok(Some(((named, None), at))),
    }
}

#[tactic(auto, using(grammar_forms::proofs::Turns::turns))]
fn statements(alloc: Global, tokens: &[Token], from: usize) -> Result<(Stmts, usize), AllocError>
    ensures { IfOk result (λ r. r ≡ many (stmt_at tokens.now 200) (length tokens.now - from) from []) }
{
    let mut found = List::new(alloc);
    let mut at = from;
    'items: for _turn in from..tokens.len() {
        let Some((item, next)) = stmt(alloc, tokens, at)? else {
            return Ok((found, at));
        };
        found.push(item)?;
        at = next;
    }
    Ok((found, at))
}

#[tactic(auto, unfolding(crate::specs::Declaring::body, command_parser::specs::Reader::braced))]
fn body(alloc: Global, tokens: &[Token], at: usize) -> Result<Option<(Stmts, usize)>, AllocError>
    ensures { IfOk result (λ r. r ≡ read.body tokens.now at) }
{
    let Some((_, at)) = sign_at(tokens, word::BRACE, at) else {
        return Ok(None);
    };
    let (all, at) = statements(alloc, tokens, at)?;
    let Some((_, end)) = sign_at(tokens, word::CLOSING_BRACE, at) else {
        return Ok(None);
    };
    Ok(Some((all, end)))
}

/// An action.
#[tactic(auto, unfolding(crate::specs::Declaring::action))]
pub(crate) fn action(
    alloc: Global,
    tokens: &[Token],
    at: usize,
) -> Result<Option<(ActionDecl, usize)>, AllocError>
    ensures { IfOk result (λ r. r ≡ read.action tokens.now at) }
{
    let spot = spot_at(tokens, at);
    let Some((((name, params), result), at)) = signature(alloc, tokens, at)? else {
        return Ok(None);
    };
    let Some((body, end)) = body(alloc, tokens, at)? else {
        return Ok(None);
    };
    let action = ActionDecl {
        spot,
        name,
        params,
        result,
        body,
    };
    Ok(Some((action, end)))
}
