//! The rules of statements over a reader of the statements that lie in a statement, so that each is proved by itself.

ghost use Rattle.std.specs.Prelude.{◌≡◌, ◌-◌, [], length, IfOk};
ghost use Rattle.grammar_forms.specs.Reader.{many};
ghost use Rattle.stmt_parser.specs.Reading as read;
ghost use Rattle.stmt_parser.specs.Nests.{Nests};

use command_parser::word;
use epl_lexer::Token;
use epl_tree::{List, Stmt, Stmts};
use expr_parser::MAX_DEPTH;
use primary_parser::token::sign_at;
use std::alloc::{AllocError, Global};

/// The rules over tokens and a reader of statements that lie in a statement, which is to read at a depth.
#[derive(Clone, Copy)]
pub(crate) struct Rules<'t, F> {
    pub(crate) alloc: Global,
    pub(crate) tokens: &'t [Token],
    pub(crate) depth: usize,
    pub(crate) deeper: F,
}

/// The statement at a place that nests at most so deep, and the place behind it.
#[tactic(auto, unfolding(crate::specs::Reading::stmt_at))]
pub(crate) fn stmt_at(
    alloc: Global,
    tokens: &[Token],
    depth: usize,
    at: usize,
) -> Result<Option<(Stmt, usize)>, AllocError>
    ensures { IfOk result (λ r. r ≡ read.stmt_at tokens.now depth at) }
{
    if depth == 0 {
        return Ok(None);
    }
    let rules = Rules {
        alloc,
        tokens,
        depth: depth - 1,
        deeper: stmt_at,
    };
    rules.stmt_over(at)
}

/// A statement of an outermost block.
pub fn stmt(alloc: Global, tokens: &[Token], at: usize) -> Result<Option<(Stmt, usize)>, AllocError>
    ensures { IfOk result (λ r. r ≡ read.stmt_at tokens.now 200 at) }
{
    stmt_at(alloc, tokens, MAX_DEPTH, at)
}

impl<'t, F: Fn(Global, &[Token], usize, usize) -> Result<Option<(Stmt, usize)>, AllocError>> Rules<
    't,
    F,
> {
    /// A statement that lies in this one.
    pub(crate) fn inner(&self, at: usize) -> Result<Option<(Stmt, usize)>, AllocError>
        requires { Nests self.now.depth (F.pre self.now.deeper) (F.post self.now.deeper) }
        ensures { IfOk result (λ r. r ≡ read.stmt_at self.now.tokens.now self.now.depth at) }
    {
        (self.deeper)(self.alloc, self.tokens, self.depth, at)
    }

    #[tactic(auto, using(grammar_forms::proofs::Turns::turns))]
    fn statements(&self, from: usize) -> Result<(Stmts, usize), AllocError>
        requires { Nests self.now.depth (F.pre self.now.deeper) (F.post self.now.deeper) }
        ensures { IfOk result (λ r. r ≡ many (read.stmt_at self.now.tokens.now self.now.depth) (length self.now.tokens.now - from) from []) }
    {
        let mut found = List::new(self.alloc);
        let mut at = from;
        'items: for _turn in from..self.tokens.len() {
            let Some((item, next)) = self.inner(at)? else {
                return Ok((found, at));
            };
            found.push(item)?;
            at = next;
        }
        Ok((found, at))
    }

    /// Statements between braces.
    #[tactic(auto, unfolding(crate::specs::Reading::block, command_parser::specs::Reader::braced))]
    pub(crate) fn block(&self, at: usize) -> Result<Option<(Stmts, usize)>, AllocError>
        requires { Nests self.now.depth (F.pre self.now.deeper) (F.post self.now.deeper) }
        ensures { IfOk result (λ r. r ≡ read.block self.now.tokens.now (read.stmt_at self.now.tokens.now self.now.depth) at) }
    {
        let Some((_, at)) = sign_at(self.tokens, word::BRACE, at) else {
            return Ok(None);
        };
        let (all, at) = self.statements(at)?;
        let Some((_, end)) = sign_at(self.tokens, word::CLOSING_BRACE, at) else {
            return Ok(None);
        };
        Ok(Some((all, end)))
    }
}
