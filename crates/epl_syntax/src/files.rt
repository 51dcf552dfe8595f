//! The trees of program files.

ghost use Rattle.std.specs.Prelude.{◌≤◌, ◌<◌, length, IfOk};
ghost use Rattle.std.specs.List.{AllByRecursion};
ghost use Rattle.epl_syntax.specs.Trees.{TokensTold, ParseTold, TreeTold, MoreTold, TreesTold};

use crate::fault::{ParseFault, SyntaxFault};
use crate::lexing::tokens_of_bytes;
use crate::programs::unit;
use decl_parser::{discard, with_unit};
use epl_lexer::{LexFault, Tokens};
use epl_tree::{Unit, Units};
use epl_values::{Bytes, List};
use std::alloc::Global;

fn tokens_in(alloc: Global, place: u32, bytes: &Bytes) -> Result<Tokens, SyntaxFault>
    requires { length bytes.now < 4294967295 }
    ensures { TokensTold place bytes.now result }
{
    match tokens_of_bytes(alloc, bytes.as_slice()) {
        Ok(tokens) => Ok(tokens),
        Err(LexFault::Lex(spot)) => Err(SyntaxFault::Lex(place, spot)),
        Err(LexFault::Memory) => Err(SyntaxFault::Memory),
    }
}

fn parsed(alloc: Global, place: u32, tokens: &Tokens) -> Result<Unit, SyntaxFault>
    ensures { ParseTold place tokens.now result }
{
    match unit(alloc, tokens) {
        Ok(tree) => Ok(tree),
        Err(ParseFault::Syntax(spot)) => Err(SyntaxFault::Syntax(place, spot)),
        Err(ParseFault::Memory) => Err(SyntaxFault::Memory),
    }
}

fn tree_in(alloc: Global, place: u32, bytes: &Bytes) -> Result<Unit, SyntaxFault>
    requires { length bytes.now < 4294967295 }
    ensures { TreeTold place bytes.now result }
{
    let tokens = tokens_in(alloc, place, bytes)?;
    parsed(alloc, place, &tokens)
}

/// Trees of files and that of one more behind them. Where it has none they are let go.
fn with_file(alloc: Global, trees: Units, place: u32, bytes: &Bytes) -> Result<Units, SyntaxFault>
    requires { length bytes.now < 4294967295 }
    ensures { MoreTold trees place bytes.now result }
{
    match tree_in(alloc, place, bytes) {
        Ok(tree) => Ok(with_unit(trees, tree)?),
        Err(why) => {
            discard(trees);
            Err(why)
        }
    }
}

/// The trees of the bytes of files, in their order, or the first file that has none, and why.
pub fn units(alloc: Global, texts: &List<Bytes>) -> Result<Units, SyntaxFault>
    requires each { AllByRecursion (λ bytes. length bytes < 4294967295) texts.now }
    requires few { length texts.now ≤ 64 }
    ensures told { TreesTold texts.now result }
    ensures few { IfOk result (λ trees. length trees ≤ 64) }
{
    let mut trees = Units::new(alloc);
    'files: for (place, bytes) in texts.as_slice().iter().enumerate() {
        trees = with_file(alloc, trees, place as u32, bytes)?;
    }
    Ok(trees)
}
