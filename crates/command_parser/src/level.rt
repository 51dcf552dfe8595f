//! Levels of the log.

ghost use Rattle.std.specs.Prelude.{◌≡◌, IfOk};
ghost use Rattle.command_parser.specs.Reader as read;

use epl_lexer::Token;
use epl_tree::{Level, Text};
use primary_parser::token::name_at;
use std::alloc::{AllocError, Global};

#[tactic(auto, unfolding(crate::specs::Reader::level_of))]
fn level_of(name: &Text) -> Option<Level>
    ensures { result ≡ read.level_of name.now }
{
    let text = name.as_str();
    if text == "CRIT" {
        return Some(Level::Crit);
    }
    if text == "FATAL" {
        return Some(Level::Fatal);
    }
    if text == "ERROR" {
        return Some(Level::Error);
    }
    if text == "WARN" {
        return Some(Level::Warn);
    }
    if text == "INFO" {
        return Some(Level::Info);
    }
    if text == "DEBUG" {
        return Some(Level::Debug);
    }
    if text == "TRACE" {
        return Some(Level::Trace);
    }
    None
}

/// The level at a place.
#[tactic(auto, unfolding(crate::specs::Reader::level_at))]
pub(crate) fn level_at(
    alloc: Global,
    tokens: &[Token],
    at: usize,
) -> Result<Option<(Level, usize)>, AllocError>
    ensures { IfOk result (λ r. r ≡ read.level_at tokens.now at) }
{
    let Some((name, end)) = name_at(alloc, tokens, at)? else {
        return Ok(None);
    };
    match level_of(&name) {
        Some(level) => Ok(Some((level, end))),
        None => Ok(None),
    }
}
