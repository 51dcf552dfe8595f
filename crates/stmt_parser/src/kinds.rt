//! A statement of any kind.

ghost use Rattle.std.specs.Prelude.{◌≡◌, IfOk};
ghost use Rattle.stmt_parser.specs.Reading as read;
ghost use Rattle.stmt_parser.specs.Nests.{Nests};

use crate::rules::Rules;
use command_parser::{call, command};
use epl_lexer::Token;
use epl_tree::{Stmt, StmtNode};
use primary_parser::token::spot_at;
use std::alloc::{AllocError, Global};

impl<'t, F: Fn(Global, &[Token], usize, usize) -> Result<Option<(Stmt, usize)>, AllocError>> Rules<
    't,
    F,
> {
    #[tactic(auto, unfolding(crate::specs::Reading::plain))]
    fn plain(&self, at: usize) -> Result<Option<(StmtNode, usize)>, AllocError>
        requires { Nests self.now.depth (F.pre self.now.deeper) (F.post self.now.deeper) }
        ensures { IfOk result (λ r. r ≡ read.plain self.now.tokens.now (read.stmt_at self.now.tokens.now self.now.depth) at) }
    {
        if let Some((node, end)) = command(self.alloc, self.tokens, at)? {
            return Ok(Some((node, end)));
        }
        if let Some((node, end)) = self.declare(at)? {
            return Ok(Some((node, end)));
        }
        if let Some((node, end)) = self.assign(at)? {
            return Ok(Some((node, end)));
        }
        call(self.alloc, self.tokens, at)
    }

    #[tactic(auto, unfolding(crate::specs::Reading::nesting))]
    fn nesting(&self, at: usize) -> Result<Option<(StmtNode, usize)>, AllocError>
        requires { Nests self.now.depth (F.pre self.now.deeper) (F.post self.now.deeper) }
        ensures { IfOk result (λ r. r ≡ read.nesting self.now.tokens.now (read.stmt_at self.now.tokens.now self.now.depth) at) }
    {
        if let Some((node, end)) = self.choice(at)? {
            return Ok(Some((node, end)));
        }
        if let Some((node, end)) = self.while_stmt(at)? {
            return Ok(Some((node, end)));
        }
        if let Some((node, end)) = self.for_stmt(at)? {
            return Ok(Some((node, end)));
        }
        self.plain(at)
    }

    #[tactic(auto, unfolding(crate::specs::Reading::stmt_node))]
    fn stmt_node(&self, at: usize) -> Result<Option<(StmtNode, usize)>, AllocError>
        requires { Nests self.now.depth (F.pre self.now.deeper) (F.post self.now.deeper) }
        ensures { IfOk result (λ r. r ≡ read.stmt_node self.now.tokens.now (read.stmt_at self.now.tokens.now self.now.depth) at) }
    {
        if let Some((all, end)) = self.block(at)? {
            return Ok(Some((StmtNode::Block(all), end)));
        }
        if let Some((listening, end)) = self.on(at)? {
            return Ok(Some((StmtNode::On(listening), end)));
        }
        self.nesting(at)
    }

    /// A statement over those that lie in it.
    #[tactic(auto, unfolding(crate::specs::Reading::stmt_over))]
    pub(crate) fn stmt_over(&self, at: usize) -> Result<Option<(Stmt, usize)>, AllocError>
        requires { Nests self.now.depth (F.pre self.now.deeper) (F.post self.now.deeper) }
        ensures { IfOk result (λ r. r ≡ read.stmt_over self.now.tokens.now (read.stmt_at self.now.tokens.now self.now.depth) at) }
    {
        let spot = spot_at(self.tokens, at);
        let Some((node, end)) = self.stmt_node(at)? else {
            return Ok(None);
        };
        Ok(Some((Stmt { spot, node }, end)))
    }
}
