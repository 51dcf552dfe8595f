//! Statements with statements in them.

ghost use Rattle.std.specs.Prelude.{◌≡◌, IfOk};
ghost use Rattle.grammar_forms.specs.Reader.{behind};
ghost use Rattle.primary_parser.specs.Tokens.{row_of};
ghost use Rattle.epl_tree.specs.declared.statement.StmtNode.TheVariants as s;
ghost use Rattle.command_parser.specs.Words as word;
ghost use Rattle.command_parser.specs.Reading as part;
ghost use Rattle.stmt_parser.specs.Reading as read;
ghost use Rattle.stmt_parser.specs.Nests.{Nests};

use crate::rules::Rules;
use command_parser::{expr, name, sees_else, word};
use epl_lexer::Token;
use epl_tree::{Boxed, Expr, Name, Stmt, StmtNode};
use primary_parser::token::{keyword_at, spot_at};
use std::alloc::{AllocError, Global};

fn if_of(
    alloc: Global,
    test: Expr,
    first: Stmt,
    second: Option<Stmt>,
) -> Result<StmtNode, AllocError>
    ensures { IfOk result (λ r. r ≡ s.If test first second) }
{
    let first = Boxed::new(alloc, first)?;
    match second {
        Some(second) => Ok(StmtNode::If(test, first, Some(Boxed::new(alloc, second)?))),
        None => Ok(StmtNode::If(test, first, None)),
    }
}

#[tactic(auto, unfolding(grammar_forms::specs::Reader::behind))]
fn while_test(
    alloc: Global,
    tokens: &[Token],
    at: usize,
) -> Result<Option<(Expr, usize)>, AllocError>
    ensures { IfOk result (λ r. r ≡ behind (row_of tokens.now) word.while_word (part.expr tokens.now) at) }
{
    let Some((_, at)) = keyword_at(tokens, word::WHILE, at) else {
        return Ok(None);
    };
    expr(alloc, tokens, at)
}

#[tactic(auto, unfolding(grammar_forms::specs::Reader::behind))]
fn loop_name(
    alloc: Global,
    tokens: &[Token],
    at: usize,
) -> Result<Option<(Name, usize)>, AllocError>
    ensures { IfOk result (λ r. r ≡ behind (row_of tokens.now) word.for_word (part.name_read tokens.now) at) }
{
    let Some((_, at)) = keyword_at(tokens, word::FOR, at) else {
        return Ok(None);
    };
    name(alloc, tokens, at)
}

#[tactic(auto, unfolding(grammar_forms::specs::Reader::behind))]
fn loop_items(
    alloc: Global,
    tokens: &[Token],
    at: usize,
) -> Result<Option<(Expr, usize)>, AllocError>
    ensures { IfOk result (λ r. r ≡ behind (row_of tokens.now) word.in_word (part.expr tokens.now) at) }
{
    let Some((_, at)) = keyword_at(tokens, word::IN, at) else {
        return Ok(None);
    };
    expr(alloc, tokens, at)
}

#[tactic(auto, unfolding(crate::specs::Reading::for_head))]
fn for_head(
    alloc: Global,
    tokens: &[Token],
    at: usize,
) -> Result<Option<((Name, Expr), usize)>, AllocError>
    ensures { IfOk result (λ r. r ≡ read.for_head tokens.now at) }
{
    let Some((name, at)) = loop_name(alloc, tokens, at)? else {
        return Ok(None);
    };
    let Some((items, end)) = loop_items(alloc, tokens, at)? else {
        return Ok(None);
    };
    Ok(Some(((name, items), end)))
}

impl<'t, F: Fn(Global, &[Token], usize, usize) -> Result<Option<(Stmt, usize)>, AllocError>> Rules<
    't,
    F,
> {
    #[tactic(auto, unfolding(crate::specs::Reading::then_branch, grammar_forms::specs::Reader::behind))]
    fn then_branch(&self, at: usize) -> Result<Option<(Stmt, usize)>, AllocError>
        requires { Nests self.now.depth (F.pre self.now.deeper) (F.post self.now.deeper) }
        ensures { IfOk result (λ r. r ≡ read.then_branch self.now.tokens.now (read.stmt_at self.now.tokens.now self.now.depth) at) }
    {
        let Some((_, at)) = keyword_at(self.tokens, word::THEN, at) else {
            return Ok(None);
        };
        self.inner(at)
    }

    #[tactic(auto, unfolding(crate::specs::Reading::block_stmt))]
    fn block_stmt(&self, at: usize) -> Result<Option<(Stmt, usize)>, AllocError>
        requires { Nests self.now.depth (F.pre self.now.deeper) (F.post self.now.deeper) }
        ensures { IfOk result (λ r. r ≡ read.block_stmt self.now.tokens.now (read.stmt_at self.now.tokens.now self.now.depth) at) }
    {
        let spot = spot_at(self.tokens, at);
        let Some((all, end)) = self.block(at)? else {
            return Ok(None);
        };
        let node = StmtNode::Block(all);
        Ok(Some((Stmt { spot, node }, end)))
    }

    #[tactic(auto, unfolding(crate::specs::Reading::branch))]
    fn branch(&self, at: usize) -> Result<Option<(Stmt, usize)>, AllocError>
        requires { Nests self.now.depth (F.pre self.now.deeper) (F.post self.now.deeper) }
        ensures { IfOk result (λ r. r ≡ read.branch self.now.tokens.now (read.stmt_at self.now.tokens.now self.now.depth) at) }
    {
        if let Some((first, end)) = self.then_branch(at)? {
            return Ok(Some((first, end)));
        }
        self.block_stmt(at)
    }

    #[tactic(auto, unfolding(crate::specs::Reading::else_branch, grammar_forms::specs::Reader::behind))]
    fn else_branch(&self, at: usize) -> Result<Option<(Stmt, usize)>, AllocError>
        requires { Nests self.now.depth (F.pre self.now.deeper) (F.post self.now.deeper) }
        ensures { IfOk result (λ r. r ≡ read.else_branch self.now.tokens.now (read.stmt_at self.now.tokens.now self.now.depth) at) }
    {
        let Some((_, at)) = keyword_at(self.tokens, word::ELSE, at) else {
            return Ok(None);
        };
        self.inner(at)
    }

    #[tactic(auto, unfolding(crate::specs::Reading::if_test, grammar_forms::specs::Reader::behind))]
    fn test(&self, at: usize) -> Result<Option<(Expr, usize)>, AllocError>
        requires { Nests self.now.depth (F.pre self.now.deeper) (F.post self.now.deeper) }
        ensures { IfOk result (λ r. r ≡ read.if_test self.now.tokens.now (read.stmt_at self.now.tokens.now self.now.depth) at) }
    {
        let Some((_, at)) = keyword_at(self.tokens, word::IF, at) else {
            return Ok(None);
        };
        expr(self.alloc, self.tokens, at)
    }

    #[tactic(auto, unfolding(crate::specs::Reading::head))]
    fn head(&self, at: usize) -> Result<Option<((Expr, Stmt), usize)>, AllocError>
        requires { Nests self.now.depth (F.pre self.now.deeper) (F.post self.now.deeper) }
        ensures { IfOk result (λ r. r ≡ read.head self.now.tokens.now (read.stmt_at self.now.tokens.now self.now.depth) at) }
    {
        let Some((test, at)) = self.test(at)? else {
            return Ok(None);
        };
        let Some((first, end)) = self.branch(at)? else {
            return Ok(None);
        };
        Ok(Some(((test, first), end)))
    }

    /// An `if`; an `else` belongs to the nearest one.
    #[tactic(auto, unfolding(crate::specs::Reading::choice))]
    pub(crate) fn choice(&self, at: usize) -> Result<Option<(StmtNode, usize)>, AllocError>
        requires { Nests self.now.depth (F.pre self.now.deeper) (F.post self.now.deeper) }
        ensures { IfOk result (λ r. r ≡ read.choice self.now.tokens.now (read.stmt_at self.now.tokens.now self.now.depth) at) }
    {
        let Some(((test, first), at)) = self.head(at)? else {
            return Ok(None);
        };
        if !sees_else(self.tokens, at) {
            return Ok(Some((if_of(self.alloc, test, first, None)?, at)));
        }
        let Some((second, end)) = self.else_branch(at)? else {
            return Ok(None);
        };
        Ok(Some((if_of(self.alloc, test, first, Some(second))?, end)))
    }

    /// A `while`.
    #[tactic(auto, unfolding(crate::specs::Reading::while_stmt))]
    pub(crate) fn while_stmt(&self, at: usize) -> Result<Option<(StmtNode, usize)>, AllocError>
        requires { Nests self.now.depth (F.pre self.now.deeper) (F.post self.now.deeper) }
        ensures { IfOk result (λ r. r ≡ read.while_stmt self.now.tokens.now (read.stmt_at self.now.tokens.now self.now.depth) at) }
    {
        let Some((test, at)) = while_test(self.alloc, self.tokens, at)? else {
            return Ok(None);
        };
        let Some((all, end)) = self.block(at)? else {
            return Ok(None);
        };
        Ok(Some((StmtNode::While(test, all), end)))
    }

    /// A `for`.
    #[tactic(auto, unfolding(crate::specs::Reading::for_stmt))]
    pub(crate) fn for_stmt(&self, at: usize) -> Result<Option<(StmtNode, usize)>, AllocError>
        requires { Nests self.now.depth (F.pre self.now.deeper) (F.post self.now.deeper) }
        ensures { IfOk result (λ r. r ≡ read.for_stmt self.now.tokens.now (read.stmt_at self.now.tokens.now self.now.depth) at) }
    {
        let Some(((name, items), at)) = for_head(self.alloc, self.tokens, at)? else {
            return Ok(None);
        };
        let Some((all, end)) = self.block(at)? else {
            return Ok(None);
        };
        Ok(Some((StmtNode::For(name, items, all), end)))
    }
}
