//! Event expressions that stand alone.

ghost use Rattle.std.specs.Prelude.{◌≡◌, ◌<◌, ◌≤◌, ℕ, length, IfOk, Err};
ghost use Rattle.epl_tree.specs.declared.event.EventExpr.{EventExpr as TheEvent};
ghost use Rattle.span_text.specs.declared.spot.Spot.{Spot as TheSpot};
ghost use Rattle.primary_parser.specs.Tokens.{spot_at};
ghost use Rattle.event_parser.specs.Grammar.{IsEvent, IsNoEvent};

use crate::fault::ParseFault;
use epl_lexer::Tokens;
use epl_tree::EventExpr;
use event_parser::{EventPart, MAX_DEPTH, event_at};
use std::alloc::Global;

/// The longest event expression at a place, and the place behind it. `Syntax` names the token there, exactly where no
/// event expression begins.
pub fn event_expression(
    alloc: Global,
    tokens: &Tokens,
    at: usize,
) -> Result<(EventExpr, usize), ParseFault>
    requires { at < length tokens.now }
    ensures tree { IfOk result (λ r. IsEvent tokens.now r.0 at r.1) }
    ensures longest { IfOk result (λ r. (e : TheEvent) (end : ℕ) → IsEvent tokens.now e at end → end ≤ r.1) }
    ensures only { IfOk result (λ r. (e : TheEvent) → IsEvent tokens.now e at r.1 → e ≡ r.0) }
    ensures nowhere { (spot : TheSpot) → result ≡ Err (ParseFault.Syntax spot) → IsNoEvent tokens.now at }
    ensures spot { (spot : TheSpot) → result ≡ Err (ParseFault.Syntax spot) → spot ≡ spot_at tokens.now at }
{
    match event_at(alloc, tokens.as_slice(), MAX_DEPTH, EventPart::Whole, at) {
        Ok(Some((event, end))) => Ok((event, end)),
        Ok(None) => Err(ParseFault::Syntax(tokens.get(at).spot)),
        Err(_) => Err(ParseFault::Memory),
    }
}
