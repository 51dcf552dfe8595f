//! The operators of constraints.

ghost use Rattle.std.specs.Prelude.{◌≡◌};
ghost use Rattle.template_parser.specs.Reading as read;

use crate::word;
use epl_lexer::Token;
use epl_tree::Comparison;
use primary_parser::token::sign_at;

/// One of `<`, `<=`, `>` and `>=`, and the place behind it.
#[tactic(auto, unfolding(crate::specs::Reading::order))]
pub(crate) fn order_at(tokens: &[Token], at: usize) -> Option<(Comparison, usize)>
    ensures { result ≡ read.order tokens.now at }
{
    if let Some((_, end)) = sign_at(tokens, word::LESS, at) {
        return Some((Comparison::Less, end));
    }
    if let Some((_, end)) = sign_at(tokens, word::AT_MOST, at) {
        return Some((Comparison::LessEqual, end));
    }
    if let Some((_, end)) = sign_at(tokens, word::GREATER, at) {
        return Some((Comparison::Greater, end));
    }
    if let Some((_, end)) = sign_at(tokens, word::AT_LEAST, at) {
        return Some((Comparison::GreaterEqual, end));
    }
    None
}

/// `=` or an order, and the place behind it.
#[tactic(auto, unfolding(crate::specs::Reading::any_test))]
pub(crate) fn test_at(tokens: &[Token], at: usize) -> Option<(Comparison, usize)>
    ensures { result ≡ read.any_test tokens.now at }
{
    if let Some((_, end)) = sign_at(tokens, word::EQUALS, at) {
        return Some((Comparison::Equal, end));
    }
    order_at(tokens, at)
}
