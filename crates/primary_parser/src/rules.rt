//! The rules of primaries over a reader of what is nested one deeper, so that each is proved by itself.

ghost use Rattle.std.specs.Prelude.{◌≡◌, IfOk};
ghost use Rattle.primary_parser.specs.Reading as read;
ghost use Rattle.primary_parser.specs.Nests.{Nests};

use crate::part::Part;
use epl_lexer::Token;
use epl_tree::Expr;
use std::alloc::{AllocError, Global};

/// The rules over tokens and a reader of what is nested one deeper, which is to read at a depth.
#[derive(Clone, Copy)]
pub struct Rules<'t, F> {
    pub alloc: Global,
    pub tokens: &'t [Token],
    pub depth: usize,
    pub deeper: F,
}

impl<
    't,
    F: Fn(Global, &[Token], usize, Part, usize) -> Result<Option<(Expr, usize)>, AllocError>,
> Rules<'t, F> {
    /// A part that is nested one deeper.
    pub fn deeper_at(&self, part: Part, at: usize) -> Result<Option<(Expr, usize)>, AllocError>
        requires { Nests self.now.depth (F.pre self.now.deeper) (F.post self.now.deeper) }
        ensures { IfOk result (λ r. r ≡ read.expr_at self.now.tokens.now self.now.depth part at) }
    {
        (self.deeper)(self.alloc, self.tokens, self.depth, part, at)
    }
}
