//! Calls that are statements.

ghost use Rattle.std.specs.Prelude.{◌≡◌, IfOk};
ghost use Rattle.command_parser.specs.Commands as tree;
ghost use Rattle.command_parser.specs.Reading as read;

use crate::word;
use epl_lexer::Token;
use epl_tree::{Expr, ExprNode, StmtNode, Suffix, SuffixNode};
use expr_parser::{MAX_DEPTH, Part, expr_at};
use primary_parser::token::sign_at;
use std::alloc::{AllocError, Global};

fn last_is_method(suffixes: &[Suffix]) -> bool
    ensures { result ≡ tree.last_is_method suffixes.now }
{
    if suffixes.is_empty() {
        return false;
    }
    matches!(suffixes[suffixes.len() - 1].node, SuffixNode::Method(_, _))
}

#[tactic(auto, unfolding(crate::specs::Commands::ends_with_call))]
fn ends_with_call(expr: &Expr) -> bool
    ensures { result ≡ tree.ends_with_call expr.now }
{
    match &expr.node {
        ExprNode::Call(_, _) => true,
        ExprNode::Context(_) => true,
        ExprNode::ContextCurrent => true,
        ExprNode::Postfix(_, suffixes) => last_is_method(suffixes.as_slice()),
        _ => false,
    }
}

#[tactic(auto, unfolding(crate::specs::Reading::call_ended, crate::specs::Reader::before))]
fn call_ended(
    alloc: Global,
    tokens: &[Token],
    at: usize,
) -> Result<Option<(Expr, usize)>, AllocError>
    ensures { IfOk result (λ r. r ≡ read.call_ended tokens.now at) }
{
    let Some((value, at)) = expr_at(alloc, tokens, MAX_DEPTH + 1, Part::Postfix, at)? else {
        return Ok(None);
    };
    let Some((_, end)) = sign_at(tokens, word::SEMICOLON, at) else {
        return Ok(None);
    };
    Ok(Some((value, end)))
}

#[tactic(auto, unfolding(crate::specs::Reading::called))]
fn called(alloc: Global, tokens: &[Token], at: usize) -> Result<Option<(Expr, usize)>, AllocError>
    ensures { IfOk result (λ r. r ≡ read.called tokens.now at) }
{
    let Some((value, end)) = call_ended(alloc, tokens, at)? else {
        return Ok(None);
    };
    if ends_with_call(&value) {
        return Ok(Some((value, end)));
    }
    Ok(None)
}

/// A call and a `;`; one that begins with `{` is no statement.
#[tactic(auto, unfolding(crate::specs::Reading::call))]
pub fn call(
    alloc: Global,
    tokens: &[Token],
    at: usize,
) -> Result<Option<(StmtNode, usize)>, AllocError>
    ensures { IfOk result (λ r. r ≡ read.call tokens.now at) }
{
    if let Some((_, _)) = sign_at(tokens, word::BRACE, at) {
        return Ok(None);
    }
    let Some((value, end)) = called(alloc, tokens, at)? else {
        return Ok(None);
    };
    Ok(Some((StmtNode::Call(value), end)))
}
