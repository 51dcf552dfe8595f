//! Types.

ghost use Rattle.std.specs.Prelude.{◌≡◌, IfOk};
ghost use Rattle.grammar_forms.specs.Reader.{behind, within};
ghost use Rattle.primary_parser.specs.Tokens.{row_of};
ghost use Rattle.primary_parser.specs.Words as word;
ghost use Rattle.primary_parser.specs.Reading as read;
ghost use Rattle.primary_parser.specs.Nests.{NestsTypes};

use crate::token::{keyword_at, name_at, sign_at, spot_at};
use crate::word;
use epl_lexer::Token;
use epl_tree::{Boxed, TypeExpr, TypeNode};
use std::alloc::{AllocError, Global};

#[tactic(auto, unfolding(crate::specs::Reading::keyword_type))]
fn keyword_type(tokens: &[Token], at: usize) -> Option<(TypeNode, usize)>
    ensures { result ≡ read.keyword_type tokens.now at }
{
    if let Some((_, end)) = keyword_at(tokens, word::INTEGER, at) {
        return Some((TypeNode::Integer, end));
    }
    if let Some((_, end)) = keyword_at(tokens, word::BOOLEAN, at) {
        return Some((TypeNode::Boolean, end));
    }
    if let Some((_, end)) = keyword_at(tokens, word::STRING, at) {
        return Some((TypeNode::Text, end));
    }
    if let Some((_, end)) = keyword_at(tokens, word::CONTEXT, at) {
        return Some((TypeNode::Context, end));
    }
    if let Some((_, end)) = keyword_at(tokens, word::LISTENER, at) {
        return Some((TypeNode::Listener, end));
    }
    None
}

/// How deep types and expressions nest.
pub const MAX_DEPTH: usize = 200;

/// The longest type at a place that nests at most so deep, and the place behind it.
#[tactic(auto, unfolding(crate::specs::Reading::type_at))]
pub fn type_at(
    alloc: Global,
    tokens: &[Token],
    depth: usize,
    at: usize,
) -> Result<Option<(TypeExpr, usize)>, AllocError>
    ensures { IfOk result (λ r. r ≡ read.type_at tokens.now depth at) }
{
    if depth == 0 {
        return Ok(None);
    }
    let rules = TypeRules {
        alloc,
        tokens,
        depth: depth - 1,
        deeper: type_at,
    };
    rules.type_over(at)
}

/// The rules of types over a reader of types that are nested one deeper.
#[derive(Clone, Copy)]
pub struct TypeRules<'t, F> {
    alloc: Global,
    tokens: &'t [Token],
    depth: usize,
    deeper: F,
}

impl<
    't,
    F: Fn(Global, &[Token], usize, usize) -> Result<Option<(TypeExpr, usize)>, AllocError>,
> TypeRules<'t, F> {
    fn deeper_at(&self, at: usize) -> Result<Option<(TypeExpr, usize)>, AllocError>
        requires { NestsTypes self.now.depth (F.pre self.now.deeper) (F.post self.now.deeper) }
        ensures { IfOk result (λ r. r ≡ read.type_at self.now.tokens.now self.now.depth at) }
    {
        (self.deeper)(self.alloc, self.tokens, self.depth, at)
    }

    #[tactic(auto, unfolding(crate::specs::Reading::element, grammar_forms::specs::Reader::within))]
    fn element(&self, at: usize) -> Result<Option<(TypeExpr, usize)>, AllocError>
        requires { NestsTypes self.now.depth (F.pre self.now.deeper) (F.post self.now.deeper) }
        ensures { IfOk result (λ r. r ≡ read.element self.now.tokens.now (read.type_at self.now.tokens.now self.now.depth) at) }
    {
        let Some((_, at)) = sign_at(self.tokens, word::LESS, at) else {
            return Ok(None);
        };
        let Some((element, at)) = self.deeper_at(at)? else {
            return Ok(None);
        };
        let Some((_, end)) = sign_at(self.tokens, word::GREATER, at) else {
            return Ok(None);
        };
        Ok(Some((element, end)))
    }

    #[tactic(auto, unfolding(grammar_forms::specs::Reader::behind))]
    fn value(&self, at: usize) -> Result<Option<(TypeExpr, usize)>, AllocError>
        requires { NestsTypes self.now.depth (F.pre self.now.deeper) (F.post self.now.deeper) }
        ensures { IfOk result (λ r. r ≡ behind (row_of self.now.tokens.now) word.comma (read.type_at self.now.tokens.now self.now.depth) at) }
    {
        let Some((_, at)) = sign_at(self.tokens, word::COMMA, at) else {
            return Ok(None);
        };
        self.deeper_at(at)
    }

    #[tactic(auto, unfolding(crate::specs::Reading::key_and_value))]
    fn key_and_value(&self, at: usize) -> Result<Option<((TypeExpr, TypeExpr), usize)>, AllocError>
        requires { NestsTypes self.now.depth (F.pre self.now.deeper) (F.post self.now.deeper) }
        ensures { IfOk result (λ r. r ≡ read.key_and_value self.now.tokens.now (read.type_at self.now.tokens.now self.now.depth) at) }
    {
        let Some((key, at)) = self.deeper_at(at)? else {
            return Ok(None);
        };
        let Some((value, end)) = self.value(at)? else {
            return Ok(None);
        };
        Ok(Some(((key, value), end)))
    }

    #[tactic(auto, unfolding(crate::specs::Reading::bracketed, grammar_forms::specs::Reader::within))]
    fn bracketed(&self, at: usize) -> Result<Option<((TypeExpr, TypeExpr), usize)>, AllocError>
        requires { NestsTypes self.now.depth (F.pre self.now.deeper) (F.post self.now.deeper) }
        ensures { IfOk result (λ r. r ≡ read.bracketed self.now.tokens.now (read.type_at self.now.tokens.now self.now.depth) at) }
    {
        let Some((_, at)) = sign_at(self.tokens, word::LESS, at) else {
            return Ok(None);
        };
        let Some((pair, at)) = self.key_and_value(at)? else {
            return Ok(None);
        };
        let Some((_, end)) = sign_at(self.tokens, word::GREATER, at) else {
            return Ok(None);
        };
        Ok(Some((pair, end)))
    }

    #[tactic(auto, unfolding(grammar_forms::specs::Reader::behind))]
    fn sequence(&self, at: usize) -> Result<Option<(TypeExpr, usize)>, AllocError>
        requires { NestsTypes self.now.depth (F.pre self.now.deeper) (F.post self.now.deeper) }
        ensures { IfOk result (λ r. r ≡ behind (row_of self.now.tokens.now) word.sequence_word (read.element self.now.tokens.now (read.type_at self.now.tokens.now self.now.depth)) at) }
    {
        let Some((_, at)) = keyword_at(self.tokens, word::SEQUENCE, at) else {
            return Ok(None);
        };
        self.element(at)
    }

    #[tactic(auto, unfolding(grammar_forms::specs::Reader::behind))]
    fn dictionary(&self, at: usize) -> Result<Option<((TypeExpr, TypeExpr), usize)>, AllocError>
        requires { NestsTypes self.now.depth (F.pre self.now.deeper) (F.post self.now.deeper) }
        ensures { IfOk result (λ r. r ≡ behind (row_of self.now.tokens.now) word.dictionary_word (read.bracketed self.now.tokens.now (read.type_at self.now.tokens.now self.now.depth)) at) }
    {
        let Some((_, at)) = keyword_at(self.tokens, word::DICTIONARY, at) else {
            return Ok(None);
        };
        self.bracketed(at)
    }

    #[tactic(auto, unfolding(crate::specs::Reading::collection_type))]
    fn collection_type(&self, at: usize) -> Result<Option<(TypeNode, usize)>, AllocError>
        requires { NestsTypes self.now.depth (F.pre self.now.deeper) (F.post self.now.deeper) }
        ensures { IfOk result (λ r. r ≡ read.collection_type self.now.tokens.now (read.type_at self.now.tokens.now self.now.depth) at) }
    {
        if let Some((element, end)) = self.sequence(at)? {
            let node = TypeNode::Sequence(Boxed::new(self.alloc, element)?);
            return Ok(Some((node, end)));
        }
        let Some(((key, value), end)) = self.dictionary(at)? else {
            return Ok(None);
        };
        let key = Boxed::new(self.alloc, key)?;
        let node = TypeNode::Dictionary(key, Boxed::new(self.alloc, value)?);
        Ok(Some((node, end)))
    }

    #[tactic(auto, unfolding(crate::specs::Reading::type_node))]
    fn type_node(&self, at: usize) -> Result<Option<(TypeNode, usize)>, AllocError>
        requires { NestsTypes self.now.depth (F.pre self.now.deeper) (F.post self.now.deeper) }
        ensures { IfOk result (λ r. r ≡ read.type_node self.now.tokens.now (read.type_at self.now.tokens.now self.now.depth) at) }
    {
        if let Some((node, end)) = keyword_type(self.tokens, at) {
            return Ok(Some((node, end)));
        }
        if let Some((name, end)) = name_at(self.alloc, self.tokens, at)? {
            return Ok(Some((TypeNode::Named(name), end)));
        }
        self.collection_type(at)
    }

    #[tactic(auto, unfolding(crate::specs::Reading::type_over))]
    fn type_over(&self, at: usize) -> Result<Option<(TypeExpr, usize)>, AllocError>
        requires { NestsTypes self.now.depth (F.pre self.now.deeper) (F.post self.now.deeper) }
        ensures { IfOk result (λ r. r ≡ read.type_over self.now.tokens.now (read.type_at self.now.tokens.now self.now.depth) at) }
    {
        let spot = spot_at(self.tokens, at);
        let Some((node, end)) = self.type_node(at)? else {
            return Ok(None);
        };
        Ok(Some((TypeExpr { spot, node }, end)))
    }
}
