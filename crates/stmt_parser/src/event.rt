//! Event expressions that stand alone.

ghost use Rattle.std.specs.Prelude.{◌≡◌, IfOk};
ghost use Rattle.stmt_parser.specs.Events as read;

use epl_lexer::Token;
use epl_tree::{Boxed, EventExpr};
use event_parser::{EventPart, MAX_DEPTH};
use std::alloc::{AllocError, Global};

#[tactic(auto, unfolding(crate::specs::Events::event))]
fn event_at(
    alloc: Global,
    tokens: &[Token],
    at: usize,
) -> Result<Option<(EventExpr, usize)>, AllocError>
    ensures { IfOk result (λ r. r ≡ read.event tokens.now at) }
{
    event_parser::event_at(alloc, tokens, MAX_DEPTH, EventPart::Whole, at)
}

/// The longest event expression at a place, in a box, and the place behind it.
pub(crate) fn boxed_event_at(
    alloc: Global,
    tokens: &[Token],
    at: usize,
) -> Result<Option<(Boxed<EventExpr>, usize)>, AllocError>
    ensures { IfOk result (λ r. r ≡ read.event tokens.now at) }
{
    let Some((event, end)) = event_at(alloc, tokens, at)? else {
        return Ok(None);
    };
    Ok(Some((Boxed::new(alloc, event)?, end)))
}
