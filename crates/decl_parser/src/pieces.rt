//! The pieces of a program file, by which the place of a fault is found.

ghost use Rattle.std.specs.Prelude.{◌≡◌, length, IfOk};
ghost use Rattle.decl_parser.specs.declared.region.Region.TheVariants as region;
ghost use Rattle.decl_parser.specs.Declaring as read;

use crate::action::signature;
use crate::event_decl::event_decl;
use crate::monitor::{global, monitor_name};
use crate::region::Region;
use command_parser::word;
use epl_lexer::Token;
use epl_tree::{Name, Params, Stmt, TypeExpr};
use primary_parser::token::{keyword_at, sign_at};
use std::alloc::{AllocError, Global};
use stmt_parser::stmt;

#[tactic(auto, unfolding(crate::specs::Declaring::monitor_head))]
fn monitor_head(
    alloc: Global,
    tokens: &[Token],
    at: usize,
) -> Result<Option<((Name, ()), usize)>, AllocError>
    ensures { IfOk result (λ r. r ≡ read.monitor_head tokens.now at) }
{
    let Some((name, at)) = monitor_name(alloc, tokens, at)? else {
        return Ok(None);
    };
    let Some((_, end)) = sign_at(tokens, word::BRACE, at) else {
        return Ok(None);
    };
    Ok(Some(((name, ()), end)))
}

#[tactic(auto, unfolding(crate::specs::Declaring::action_head))]
fn action_head(
    alloc: Global,
    tokens: &[Token],
    at: usize,
) -> Result<Option<((((Name, Params), Option<TypeExpr>), ()), usize)>, AllocError>
    ensures { IfOk result (λ r. r ≡ read.action_head tokens.now at) }
{
    let Some((signature, at)) = signature(alloc, tokens, at)? else {
        return Ok(None);
    };
    let Some((_, end)) = sign_at(tokens, word::BRACE, at) else {
        return Ok(None);
    };
    Ok(Some(((signature, ()), end)))
}

#[tactic(auto, unfolding(crate::specs::Declaring::whole_stmt))]
fn whole_stmt(
    alloc: Global,
    tokens: &[Token],
    at: usize,
) -> Result<Option<(Stmt, usize)>, AllocError>
    ensures { IfOk result (λ r. r ≡ read.whole_stmt tokens.now at) }
{
    let Some((stmt, end)) = stmt(alloc, tokens, at)? else {
        return Ok(None);
    };
    if let Some((_, _)) = keyword_at(tokens, word::ELSE, end) {
        return Ok(None);
    }
    Ok(Some((stmt, end)))
}

#[tactic(auto, unfolding(crate::specs::Declaring::piece_outside))]
fn piece_outside(
    alloc: Global,
    tokens: &[Token],
    at: usize,
) -> Result<Option<(Region, usize)>, AllocError>
    ensures { IfOk result (λ r. r ≡ read.piece_outside tokens.now at) }
{
    if let Some((_event, end)) = event_decl(alloc, tokens, at)? {
        return Ok(Some((Region::Outside, end)));
    }
    let Some((_head, end)) = monitor_head(alloc, tokens, at)? else {
        return Ok(None);
    };
    Ok(Some((Region::Monitor, end)))
}

#[tactic(auto, unfolding(crate::specs::Declaring::piece_in_monitor))]
fn piece_in_monitor(
    alloc: Global,
    tokens: &[Token],
    at: usize,
) -> Result<Option<(Region, usize)>, AllocError>
    ensures { IfOk result (λ r. r ≡ read.piece_in_monitor tokens.now at) }
{
    if let Some((_global, end)) = global(alloc, tokens, at)? {
        return Ok(Some((Region::Monitor, end)));
    }
    if let Some((_head, end)) = action_head(alloc, tokens, at)? {
        return Ok(Some((Region::Action, end)));
    }
    let Some((_, end)) = sign_at(tokens, word::CLOSING_BRACE, at) else {
        return Ok(None);
    };
    Ok(Some((Region::Outside, end)))
}

#[tactic(auto, unfolding(crate::specs::Declaring::piece_in_action))]
fn piece_in_action(
    alloc: Global,
    tokens: &[Token],
    at: usize,
) -> Result<Option<(Region, usize)>, AllocError>
    ensures { IfOk result (λ r. r ≡ read.piece_in_action tokens.now at) }
{
    if let Some((_stmt, end)) = whole_stmt(alloc, tokens, at)? {
        return Ok(Some((Region::Action, end)));
    }
    let Some((_, end)) = sign_at(tokens, word::CLOSING_BRACE, at) else {
        return Ok(None);
    };
    Ok(Some((Region::Monitor, end)))
}

fn piece(
    alloc: Global,
    tokens: &[Token],
    here: Region,
    at: usize,
) -> Result<Option<(Region, usize)>, AllocError>
    ensures { IfOk result (λ r. r ≡ read.piece tokens.now here at) }
{
    match here {
        Region::Outside => piece_outside(alloc, tokens, at),
        Region::Monitor => piece_in_monitor(alloc, tokens, at),
        Region::Action => piece_in_action(alloc, tokens, at),
    }
}

/// How far the cut into pieces comes from the start: the region there, and the place.
#[tactic(auto, using(crate::proofs::Turns::cuts))]
pub fn cut(alloc: Global, tokens: &[Token]) -> Result<(Region, usize), AllocError>
    ensures { IfOk result (λ r. r ≡ read.cut tokens.now (length tokens.now) region.Outside 0) }
{
    let mut here = Region::Outside;
    let mut at = 0;
    'pieces: for _turn in 0..tokens.len() {
        let Some((region, end)) = piece(alloc, tokens, here, at)? else {
            return Ok((here, at));
        };
        here = region;
        at = end;
    }
    Ok((here, at))
}
