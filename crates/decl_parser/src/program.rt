//! Program files.

ghost use Rattle.std.specs.Prelude.{◌≡◌, length, IfOk, []};
ghost use Rattle.grammar_forms.specs.Reader.{many};
ghost use Rattle.decl_parser.specs.Declaring as read;

use crate::monitor::declaration;
use epl_lexer::{Kind, Token};
use epl_tree::{Declarations, List, Unit};
use std::alloc::{AllocError, Global};

#[tactic(auto, using(grammar_forms::proofs::Turns::turns))]
fn declarations(alloc: Global, tokens: &[Token]) -> Result<(Declarations, usize), AllocError>
    ensures { IfOk result (λ r. r ≡ many (read.declaration_at tokens.now) (length tokens.now) 0 []) }
{
    let mut found = List::new(alloc);
    let mut at = 0;
    'items: for _turn in 0..tokens.len() {
        let Some((item, next)) = declaration(alloc, tokens, at)? else {
            return Ok((found, at));
        };
        found.push(item)?;
        at = next;
    }
    Ok((found, at))
}

/// Whether the end of the text stands at a place.
fn is_end(tokens: &[Token], at: usize) -> bool
    ensures { result ≡ read.is_end tokens.now at }
{
    match tokens.get(at) {
        None => true,
        Some(
            Token {
                kind: Kind::End,
                ..
            },
        ) => true,
        Some(_) => false,
    }
}

/// The tree of a program file, over all its tokens up to the end.
#[tactic(auto, unfolding(crate::specs::Declaring::unit_read))]
pub fn unit_read(alloc: Global, tokens: &[Token]) -> Result<Option<Unit>, AllocError>
    ensures { IfOk result (λ r. r ≡ read.unit_read tokens.now) }
{
    let (declarations, end) = declarations(alloc, tokens)?;
    if is_end(tokens, end) {
        return Ok(Some(Unit { declarations }));
    }
    Ok(None)
}
