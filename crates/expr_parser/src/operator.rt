//! Operators.

ghost use Rattle.std.specs.Prelude.{◌≡◌};
ghost use Rattle.primary_parser.specs.Reading as read;

use epl_lexer::Token;
use epl_tree::{Comparison, Operator};
use primary_parser::token::sign_at;
use primary_parser::word;

/// An operator that compares, and the place behind it.
#[tactic(auto, unfolding(primary_parser::specs::Reading::compared_by))]
pub fn comparison_at(tokens: &[Token], at: usize) -> Option<(Comparison, usize)>
    ensures { result ≡ read.compared_by tokens.now at }
{
    if let Some((_, end)) = sign_at(tokens, word::EQUALS, at) {
        return Some((Comparison::Equal, end));
    }
    if let Some((_, end)) = sign_at(tokens, word::DIFFERS, at) {
        return Some((Comparison::NotEqual, end));
    }
    if let Some((_, end)) = sign_at(tokens, word::LESS, at) {
        return Some((Comparison::Less, end));
    }
    if let Some((_, end)) = sign_at(tokens, word::AT_MOST, at) {
        return Some((Comparison::LessEqual, end));
    }
    if let Some((_, end)) = sign_at(tokens, word::GREATER, at) {
        return Some((Comparison::Greater, end));
    }
    if let Some((_, end)) = sign_at(tokens, word::AT_LEAST, at) {
        return Some((Comparison::GreaterEqual, end));
    }
    None
}

/// A `+` or `-`, and the place behind it.
#[tactic(auto, unfolding(primary_parser::specs::Reading::additive))]
pub fn additive_at(tokens: &[Token], at: usize) -> Option<(Operator, usize)>
    ensures { result ≡ read.additive tokens.now at }
{
    if let Some((_, end)) = sign_at(tokens, word::PLUS, at) {
        return Some((Operator::Add, end));
    }
    if let Some((_, end)) = sign_at(tokens, word::MINUS, at) {
        return Some((Operator::Subtract, end));
    }
    None
}

/// A `*`, `/` or `%`, and the place behind it.
#[tactic(auto, unfolding(primary_parser::specs::Reading::multiplicative))]
pub fn multiplicative_at(tokens: &[Token], at: usize) -> Option<(Operator, usize)>
    ensures { result ≡ read.multiplicative tokens.now at }
{
    if let Some((_, end)) = sign_at(tokens, word::TIMES, at) {
        return Some((Operator::Multiply, end));
    }
    if let Some((_, end)) = sign_at(tokens, word::DIVIDED, at) {
        return Some((Operator::Divide, end));
    }
    if let Some((_, end)) = sign_at(tokens, word::REMAINDER, at) {
        return Some((Operator::Remainder, end));
    }
    None
}
