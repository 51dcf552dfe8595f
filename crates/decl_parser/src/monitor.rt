//! Monitors.

ghost use Rattle.std.specs.Prelude.{◌≡◌, ◌-◌, [], length, IfOk};
ghost use Rattle.grammar_forms.specs.Reader.{many};
ghost use Rattle.decl_parser.specs.Declaring as read;

use crate::action::action;
use crate::event_decl::event_decl;
use command_parser::{expr, name, typed, word};
use epl_lexer::Token;
use epl_tree::{Declaration, Expr, GlobalDecl, List, Member, Members, MonitorDecl, Name, TypeExpr};
use primary_parser::token::{keyword_at, sign_at, spot_at};
use std::alloc::{AllocError, Global};

#[tactic(auto, unfolding(crate::specs::Declaring::initial_value, grammar_forms::specs::Reader::behind))]
fn initial_value(
    alloc: Global,
    tokens: &[Token],
    at: usize,
) -> Result<Option<(Expr, usize)>, AllocError>
    ensures { IfOk result (λ r. r ≡ read.initial_value tokens.now at) }
{
    let Some((_, at)) = sign_at(tokens, word::ASSIGNS, at) else {
        return Ok(None);
    };
    expr(alloc, tokens, at)
}

#[tactic(auto, unfolding(crate::specs::Declaring::initialised))]
fn initialised(
    alloc: Global,
    tokens: &[Token],
    at: usize,
) -> Result<Option<(((TypeExpr, Name), Option<Expr>), usize)>, AllocError>
    ensures { IfOk result (λ r. r ≡ read.initialised tokens.now at) }
{
    let Some((typed, at)) = typed(alloc, tokens, at)? else {
        return Ok(None);
    };
    match initial_value(alloc, tokens, at)? {
        Some((value, end)) => Ok(Some(((typed, Some(value)), end))),
        None => Ok(Some(((typed, None), at))),
    }
}

/// A variable of a monitor.
#[tactic(auto, unfolding(crate::specs::Declaring::global, command_parser::specs::Reader::before))]
pub(crate) fn global(
    alloc: Global,
    tokens: &[Token],
    at: usize,
) -> Result<Option<(GlobalDecl, usize)>, AllocError>
    ensures { IfOk result (λ r. r ≡ read.global tokens.now at) }
{
    let Some((((shape, name), initial), at)) = initialised(alloc, tokens, at)? else {
        return Ok(None);
    };
    let Some((_, end)) = sign_at(tokens, word::SEMICOLON, at) else {
        return Ok(None);
    };
    let global = GlobalDecl {
        shape,
        name,
        initial,
    };
    Ok(Some((global, end)))
}

#[tactic(auto, unfolding(crate::specs::Declaring::member_at))]
fn member(alloc: Global, tokens: &[Token], at: usize) -> Result<Option<(Member, usize)>, AllocError>
    ensures { IfOk result (λ r. r ≡ read.member_at tokens.now at) }
{
    if let Some((global, end)) = global(alloc, tokens, at)? {
        return Ok(Some((Member::Global(global), end)));
    }
    let Some((action, end)) = action(alloc, tokens, at)? else {
        return Ok(None);
    };
    Ok(Some((Member::Action(action), end)))
}

#[tactic(auto, using(grammar_forms::proofs::Turns::turns))]
fn more_members(
    alloc: Global,
    tokens: &[Token],
    from: usize,
) -> Result<(Members, usize), AllocError>
    ensures { IfOk result (λ r. r ≡ many (read.member_at tokens.now) (length tokens.now - from) from []) }
{
    let mut found = List::new(alloc);
    let mut at = from;
    'items: for _turn in from..tokens.len() {
        let Some((item, next)) = member(alloc, tokens, at)? else {
            return Ok((found, at));
        };
        found.push(item)?;
        at = next;
    }
    Ok((found, at))
}

#[tactic(auto, unfolding(crate::specs::Declaring::members, command_parser::specs::Reader::braced))]
fn members(
    alloc: Global,
    tokens: &[Token],
    at: usize,
) -> Result<Option<(Members, usize)>, AllocError>
    ensures { IfOk result (λ r. r ≡ read.members tokens.now at) }
{
    let Some((_, at)) = sign_at(tokens, word::BRACE, at) else {
        return Ok(None);
    };
    let (all, at) = more_members(alloc, tokens, at)?;
    let Some((_, end)) = sign_at(tokens, word::CLOSING_BRACE, at) else {
        return Ok(None);
    };
    Ok(Some((all, end)))
}

/// `monitor` and its name.
#[tactic(auto, unfolding(crate::specs::Declaring::monitor_name, grammar_forms::specs::Reader::behind))]
pub(crate) fn monitor_name(
    alloc: Global,
    tokens: &[Token],
    at: usize,
) -> Result<Option<(Name, usize)>, AllocError>
    ensures { IfOk result (λ r. r ≡ read.monitor_name tokens.now at) }
{
    let Some((_, at)) = keyword_at(tokens, word::MONITOR, at) else {
        return Ok(None);
    };
    name(alloc, tokens, at)
}

#[tactic(auto, unfolding(crate::specs::Declaring::monitor))]
fn monitor(
    alloc: Global,
    tokens: &[Token],
    at: usize,
) -> Result<Option<(MonitorDecl, usize)>, AllocError>
    ensures { IfOk result (λ r. r ≡ read.monitor tokens.now at) }
{
    let spot = spot_at(tokens, at);
    let Some((name, at)) = monitor_name(alloc, tokens, at)? else {
        return Ok(None);
    };
    let Some((members, end)) = members(alloc, tokens, at)? else {
        return Ok(None);
    };
    let monitor = MonitorDecl {
        spot,
        name,
        members,
    };
    Ok(Some((monitor, end)))
}

/// An event type or a monitor.
#[tactic(auto, unfolding(crate::specs::Declaring::declaration_at))]
pub(crate) fn declaration(
    alloc: Global,
    tokens: &[Token],
    at: usize,
) -> Result<Option<(Declaration, usize)>, AllocError>
    ensures { IfOk result (λ r. r ≡ read.declaration_at tokens.now at) }
{
    if let Some((event, end)) = event_decl(alloc, tokens, at)? {
        return Ok(Some((Declaration::Event(event), end)));
    }
    let Some((monitor, end)) = monitor(alloc, tokens, at)? else {
        return Ok(None);
    };
    Ok(Some((Declaration::Monitor(monitor), end)))
}
