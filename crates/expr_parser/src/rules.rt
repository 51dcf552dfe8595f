//! The rules of operators over those of primaries, so that each is proved by itself.

ghost use Rattle.std.specs.Prelude.{◌≡◌, IfOk};
ghost use Rattle.primary_parser.specs.Reading as read;

use epl_lexer::Token;
use epl_tree::{Expr, Exprs};
use primary_parser::{MAX_DEPTH, Part, Rules};
use std::alloc::{AllocError, Global};

/// The rules of operators, and those of primaries that they stand on.
#[derive(Clone, Copy)]
pub struct OperatorRules<'t, F> {
    pub(crate) primaries: Rules<'t, F>,
}

/// The longest tree of a part at a place that nests at most so deep, and the place behind it.
#[tactic(auto, unfolding(primary_parser::specs::Reading::expr_at))]
pub fn expr_at(
    alloc: Global,
    tokens: &[Token],
    depth: usize,
    part: Part,
    at: usize,
) -> Result<Option<(Expr, usize)>, AllocError>
    ensures { IfOk result (λ r. r ≡ read.expr_at tokens.now depth part at) }
{
    if depth == 0 {
        return Ok(None);
    }
    let primaries = Rules {
        alloc,
        tokens,
        depth: depth - 1,
        deeper: expr_at,
    };
    let rules = OperatorRules { primaries };
    rules.part(part, at)
}

/// Arguments in parentheses at a place, and the place behind them; each is an expression that stands alone.
pub fn arguments_at(
    alloc: Global,
    tokens: &[Token],
    at: usize,
) -> Result<Option<(Exprs, usize)>, AllocError>
    ensures { IfOk result (λ r. r ≡ read.arguments tokens.now (read.expr_at tokens.now 200) at) }
{
    let rules = Rules {
        alloc,
        tokens,
        depth: MAX_DEPTH,
        deeper: expr_at,
    };
    rules.arguments(at)
}
