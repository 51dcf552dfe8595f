//! The tree of a program file's tokens, or the place of the syntax fault.

ghost use Rattle.std.specs.Prelude.{◌≡◌, None, Err};
ghost use Rattle.decl_parser.specs.Declaring as read;
ghost use Rattle.epl_syntax.specs.Told.{TellsUnit};

use crate::fault::ParseFault;
use decl_parser::{cut, unit_read};
use epl_lexer::{Token, Tokens};
use epl_tree::Unit;
use primary_parser::token::spot_at;
use std::alloc::Global;

/// The place of the fault, where there is no tree.
fn fault(alloc: Global, tokens: &[Token]) -> ParseFault
    requires { read.unit_read tokens.now ≡ None }
    ensures { TellsUnit tokens.now (Err result) }
{
    match cut(alloc, tokens) {
        Ok((_, at)) => ParseFault::Syntax(spot_at(tokens, at)),
        Err(_) => ParseFault::Memory,
    }
}

/// The tree of a program file, over all its tokens up to the end. Where there is none, `Syntax` names the place to
/// which the file can be cut into pieces from its start: event types, heads of monitors, globals, heads of actions,
/// statements of an action's outermost block, and the `}` that end actions and monitors.
pub fn unit(alloc: Global, tokens: &Tokens) -> Result<Unit, ParseFault>
    ensures { TellsUnit tokens.now result }
{
    match unit_read(alloc, tokens.as_slice()) {
        Ok(Some(unit)) => Ok(unit),
        Ok(None) => Err(fault(alloc, tokens.as_slice())),
        Err(_) => Err(ParseFault::Memory),
    }
}
