//! Statements that begin with a keyword of their own and hold no other.

ghost use Rattle.std.specs.Prelude.{◌≡◌, IfOk};
ghost use Rattle.grammar_forms.specs.Reader.{behind};
ghost use Rattle.primary_parser.specs.Tokens.{row_of};
ghost use Rattle.primary_parser.specs.Words as sign;
ghost use Rattle.command_parser.specs.Words as word;
ghost use Rattle.command_parser.specs.Reader.{before};
ghost use Rattle.command_parser.specs.Reading as read;

use crate::level::level_at;
use crate::parts::{ended, expr, named_call, word_at};
use crate::word;
use epl_lexer::Token;
use epl_tree::{Expr, Exprs, Level, StmtNode, Text};
use primary_parser::token::{keyword_at, sign_at};
use std::alloc::{AllocError, Global};

#[tactic(auto, unfolding(crate::specs::Reading::returned))]
fn returned(
    alloc: Global,
    tokens: &[Token],
    at: usize,
) -> Result<Option<(((), Option<Expr>), usize)>, AllocError>
    ensures { IfOk result (λ r. r ≡ read.returned tokens.now at) }
{
    let Some((_, at)) = keyword_at(tokens, word::RETURN, at) else {
        return Ok(None);
    };
    match expr(alloc, tokens, at)? {
        Some((value, end)) => Ok(Some((((), Some(value)), end))),
        None => Ok(Some((((), None), at))),
    }
}

#[tactic(auto, unfolding(crate::specs::Reading::return_stmt, crate::specs::Reader::before))]
fn return_stmt(
    alloc: Global,
    tokens: &[Token],
    at: usize,
) -> Result<Option<(StmtNode, usize)>, AllocError>
    ensures { IfOk result (λ r. r ≡ read.return_stmt tokens.now at) }
{
    let Some(((_, value), at)) = returned(alloc, tokens, at)? else {
        return Ok(None);
    };
    let Some((_, end)) = sign_at(tokens, word::SEMICOLON, at) else {
        return Ok(None);
    };
    Ok(Some((StmtNode::Return(value), end)))
}

#[tactic(auto, unfolding(crate::specs::Reading::logged, grammar_forms::specs::Reader::behind))]
fn logged(alloc: Global, tokens: &[Token], at: usize) -> Result<Option<(Expr, usize)>, AllocError>
    ensures { IfOk result (λ r. r ≡ read.logged tokens.now at) }
{
    let Some((_, at)) = keyword_at(tokens, word::LOG, at) else {
        return Ok(None);
    };
    expr(alloc, tokens, at)
}

#[tactic(auto, unfolding(crate::specs::Reading::leveled, grammar_forms::specs::Reader::behind))]
fn leveled(alloc: Global, tokens: &[Token], at: usize) -> Result<Option<(Level, usize)>, AllocError>
    ensures { IfOk result (λ r. r ≡ read.leveled tokens.now at) }
{
    let Some((_, at)) = keyword_at(tokens, word::AT, at) else {
        return Ok(None);
    };
    level_at(alloc, tokens, at)
}

#[tactic(auto, unfolding(crate::specs::Reader::before))]
fn leveled_end(
    alloc: Global,
    tokens: &[Token],
    at: usize,
) -> Result<Option<(Level, usize)>, AllocError>
    ensures { IfOk result (λ r. r ≡ before (row_of tokens.now) word.semicolon (read.leveled tokens.now) at) }
{
    let Some((level, at)) = leveled(alloc, tokens, at)? else {
        return Ok(None);
    };
    let Some((_, end)) = sign_at(tokens, word::SEMICOLON, at) else {
        return Ok(None);
    };
    Ok(Some((level, end)))
}

#[tactic(auto, unfolding(crate::specs::Reading::log))]
fn log(alloc: Global, tokens: &[Token], at: usize) -> Result<Option<(StmtNode, usize)>, AllocError>
    ensures { IfOk result (λ r. r ≡ read.log tokens.now at) }
{
    let Some((value, at)) = logged(alloc, tokens, at)? else {
        return Ok(None);
    };
    let Some((level, end)) = leveled_end(alloc, tokens, at)? else {
        return Ok(None);
    };
    Ok(Some((StmtNode::Log(value, level), end)))
}

#[tactic(auto, unfolding(crate::specs::Reading::sent, grammar_forms::specs::Reader::behind))]
fn sent(alloc: Global, tokens: &[Token], at: usize) -> Result<Option<(Expr, usize)>, AllocError>
    ensures { IfOk result (λ r. r ≡ read.sent tokens.now at) }
{
    let Some((_, at)) = keyword_at(tokens, word::SEND, at) else {
        return Ok(None);
    };
    expr(alloc, tokens, at)
}

#[tactic(auto, unfolding(crate::specs::Reading::target, grammar_forms::specs::Reader::behind))]
fn target(alloc: Global, tokens: &[Token], at: usize) -> Result<Option<(Expr, usize)>, AllocError>
    ensures { IfOk result (λ r. r ≡ read.target tokens.now at) }
{
    let Some((_, at)) = keyword_at(tokens, word::TO, at) else {
        return Ok(None);
    };
    ended(alloc, tokens, at)
}

#[tactic(auto, unfolding(crate::specs::Reading::send))]
fn send(alloc: Global, tokens: &[Token], at: usize) -> Result<Option<(StmtNode, usize)>, AllocError>
    ensures { IfOk result (λ r. r ≡ read.send tokens.now at) }
{
    let Some((event, at)) = sent(alloc, tokens, at)? else {
        return Ok(None);
    };
    let Some((target, end)) = target(alloc, tokens, at)? else {
        return Ok(None);
    };
    Ok(Some((StmtNode::Send(event, target), end)))
}

#[tactic(auto, unfolding(crate::specs::Reading::spawned, grammar_forms::specs::Reader::behind))]
fn spawned(
    alloc: Global,
    tokens: &[Token],
    at: usize,
) -> Result<Option<((Text, Exprs), usize)>, AllocError>
    ensures { IfOk result (λ r. r ≡ read.spawned tokens.now at) }
{
    let Some((_, at)) = keyword_at(tokens, word::SPAWN, at) else {
        return Ok(None);
    };
    named_call(alloc, tokens, at)
}

#[tactic(auto, unfolding(crate::specs::Reading::context, grammar_forms::specs::Reader::behind))]
fn context(alloc: Global, tokens: &[Token], at: usize) -> Result<Option<(Expr, usize)>, AllocError>
    ensures { IfOk result (λ r. r ≡ read.context tokens.now at) }
{
    let Some((_, at)) = keyword_at(tokens, word::TO, at) else {
        return Ok(None);
    };
    expr(alloc, tokens, at)
}

#[tactic(auto, unfolding(crate::specs::Reading::spawned_to))]
fn spawned_to(
    alloc: Global,
    tokens: &[Token],
    at: usize,
) -> Result<Option<(((Text, Exprs), Option<Expr>), usize)>, AllocError>
    ensures { IfOk result (λ r. r ≡ read.spawned_to tokens.now at) }
{
    let Some((call, at)) = spawned(alloc, tokens, at)? else {
        return Ok(None);
    };
    match context(alloc, tokens, at)? {
        Some((context, end)) => Ok(Some(((call, Some(context)), end))),
        None => Ok(Some(((call, None), at))),
    }
}

#[tactic(auto, unfolding(crate::specs::Reading::spawn, crate::specs::Reader::before))]
fn spawn(
    alloc: Global,
    tokens: &[Token],
    at: usize,
) -> Result<Option<(StmtNode, usize)>, AllocError>
    ensures { IfOk result (λ r. r ≡ read.spawn tokens.now at) }
{
    let Some((((name, args), context), at)) = spawned_to(alloc, tokens, at)? else {
        return Ok(None);
    };
    let Some((_, end)) = sign_at(tokens, word::SEMICOLON, at) else {
        return Ok(None);
    };
    Ok(Some((StmtNode::Spawn(name, args, context), end)))
}

#[tactic(auto, unfolding(crate::specs::Reader::before))]
fn call_ended(
    alloc: Global,
    tokens: &[Token],
    at: usize,
) -> Result<Option<((Text, Exprs), usize)>, AllocError>
    ensures { IfOk result (λ r. r ≡ before (row_of tokens.now) word.semicolon (read.named_call tokens.now) at) }
{
    let Some((call, at)) = named_call(alloc, tokens, at)? else {
        return Ok(None);
    };
    let Some((_, end)) = sign_at(tokens, word::SEMICOLON, at) else {
        return Ok(None);
    };
    Ok(Some((call, end)))
}

#[tactic(auto, unfolding(crate::specs::Reading::monitor_tail, grammar_forms::specs::Reader::behind))]
fn monitor_tail(
    alloc: Global,
    tokens: &[Token],
    at: usize,
) -> Result<Option<((Text, Exprs), usize)>, AllocError>
    ensures { IfOk result (λ r. r ≡ read.monitor_tail tokens.now at) }
{
    let Some((_, at)) = sign_at(tokens, word::POINT, at) else {
        return Ok(None);
    };
    call_ended(alloc, tokens, at)
}

#[tactic(auto, unfolding(crate::specs::Reading::monitor_call, grammar_forms::specs::Reader::behind))]
fn monitor_call(
    alloc: Global,
    tokens: &[Token],
    at: usize,
) -> Result<Option<(StmtNode, usize)>, AllocError>
    ensures { IfOk result (λ r. r ≡ read.monitor_call tokens.now at) }
{
    let Some((_, at)) = keyword_at(tokens, word::MONITOR, at) else {
        return Ok(None);
    };
    let Some(((name, args), end)) = monitor_tail(alloc, tokens, at)? else {
        return Ok(None);
    };
    Ok(Some((StmtNode::Monitor(name, args), end)))
}

#[tactic(auto, unfolding(crate::specs::Reading::print, grammar_forms::specs::Reader::behind))]
fn print(alloc: Global, tokens: &[Token], at: usize) -> Result<Option<(Expr, usize)>, AllocError>
    ensures { IfOk result (λ r. r ≡ read.print tokens.now at) }
{
    let Some((_, at)) = keyword_at(tokens, word::PRINT, at) else {
        return Ok(None);
    };
    ended(alloc, tokens, at)
}

#[tactic(auto, unfolding(crate::specs::Reading::route, grammar_forms::specs::Reader::behind))]
fn route(alloc: Global, tokens: &[Token], at: usize) -> Result<Option<(Expr, usize)>, AllocError>
    ensures { IfOk result (λ r. r ≡ read.route tokens.now at) }
{
    let Some((_, at)) = keyword_at(tokens, word::ROUTE, at) else {
        return Ok(None);
    };
    ended(alloc, tokens, at)
}

#[tactic(auto, unfolding(crate::specs::Reading::sending))]
fn sending(
    alloc: Global,
    tokens: &[Token],
    at: usize,
) -> Result<Option<(StmtNode, usize)>, AllocError>
    ensures { IfOk result (λ r. r ≡ read.sending tokens.now at) }
{
    if let Some((event, end)) = route(alloc, tokens, at)? {
        return Ok(Some((StmtNode::Route(event), end)));
    }
    if let Some((node, end)) = send(alloc, tokens, at)? {
        return Ok(Some((node, end)));
    }
    if let Some((node, end)) = spawn(alloc, tokens, at)? {
        return Ok(Some((node, end)));
    }
    monitor_call(alloc, tokens, at)
}

#[tactic(auto, unfolding(crate::specs::Reading::writing))]
fn writing(
    alloc: Global,
    tokens: &[Token],
    at: usize,
) -> Result<Option<(StmtNode, usize)>, AllocError>
    ensures { IfOk result (λ r. r ≡ read.writing tokens.now at) }
{
    if let Some((value, end)) = print(alloc, tokens, at)? {
        return Ok(Some((StmtNode::Print(value), end)));
    }
    if let Some((node, end)) = log(alloc, tokens, at)? {
        return Ok(Some((node, end)));
    }
    sending(alloc, tokens, at)
}

/// A statement that begins with a keyword of its own and holds no other.
#[tactic(auto, unfolding(crate::specs::Reading::command, crate::specs::Reading::word))]
pub fn command(
    alloc: Global,
    tokens: &[Token],
    at: usize,
) -> Result<Option<(StmtNode, usize)>, AllocError>
    ensures { IfOk result (λ r. r ≡ read.command tokens.now at) }
{
    if let Some((_, end)) = word_at(tokens, word::BREAK, at) {
        return Ok(Some((StmtNode::Break, end)));
    }
    if let Some((_, end)) = word_at(tokens, word::CONTINUE, at) {
        return Ok(Some((StmtNode::Continue, end)));
    }
    if let Some((node, end)) = return_stmt(alloc, tokens, at)? {
        return Ok(Some((node, end)));
    }
    if let Some((_, end)) = word_at(tokens, word::DIE, at) {
        return Ok(Some((StmtNode::Die, end)));
    }
    writing(alloc, tokens, at)
}
