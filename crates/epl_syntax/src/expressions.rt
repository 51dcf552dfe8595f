//! Expressions that stand alone.

ghost use Rattle.std.specs.Prelude.{◌≡◌, ◌<◌, ◌≤◌, ℕ, length, IfOk, Err};
ghost use Rattle.epl_tree.specs.declared.expression.Expr.{Expr as TheExpr};
ghost use Rattle.span_text.specs.declared.spot.Spot.{Spot as TheSpot};
ghost use Rattle.primary_parser.specs.Tokens.{spot_at};
ghost use Rattle.primary_parser.specs.Grammar.{IsExpr, IsNoExpr};

use crate::fault::ParseFault;
use epl_lexer::Tokens;
use epl_tree::Expr;
use expr_parser::{MAX_DEPTH, Part, expr_at};
use std::alloc::Global;

/// The longest expression at a place, and the place behind it. `Syntax` names the token there, exactly where no
/// expression begins.
pub fn expression(alloc: Global, tokens: &Tokens, at: usize) -> Result<(Expr, usize), ParseFault>
    requires { at < length tokens.now }
    ensures tree { IfOk result (λ r. IsExpr tokens.now r.0 at r.1) }
    ensures longest { IfOk result (λ r. (e : TheExpr) (end : ℕ) → IsExpr tokens.now e at end → end ≤ r.1) }
    ensures only { IfOk result (λ r. (e : TheExpr) → IsExpr tokens.now e at r.1 → e ≡ r.0) }
    ensures nowhere { (spot : TheSpot) → result ≡ Err (ParseFault.Syntax spot) → IsNoExpr tokens.now at }
    ensures spot { (spot : TheSpot) → result ≡ Err (ParseFault.Syntax spot) → spot ≡ spot_at tokens.now at }
{
    match expr_at(alloc, tokens.as_slice(), MAX_DEPTH, Part::Whole, at) {
        Ok(Some((expr, end))) => Ok((expr, end)),
        Ok(None) => Err(ParseFault::Syntax(tokens.get(at).spot)),
        Err(_) => Err(ParseFault::Memory),
    }
}
