ghost use Rattle.std.specs.Prelude.{◌≡◌, ◌-◌, [], length, IfOk};
ghost use Rattle.grammar_forms.specs.Reader.{and_many, and_optional, behind, within, many};
ghost use Rattle.primary_parser.specs.Tokens.{row_of, sign, keyword};
ghost use Rattle.primary_parser.specs.Words as word;
ghost use Rattle.primary_parser.specs.Grammar as tree;
ghost use Rattle.primary_parser.specs.Reader.{enclosed, joined};
ghost use Rattle.primary_parser.specs.Reading as read;
ghost use Rattle.primary_parser.specs.Reading.{expr_at};
ghost use Rattle.primary_parser.specs.declared.part.Part.TheVariants as part;
ghost use Rattle.primary_parser.specs.Nests.{Nests};

use crate::literal::{current_at, literal_at};
use crate::part::Part;
use crate::rules::Rules;
use crate::token::{keyword_at, name_at, sign_at, spot_at};
use crate::types::{MAX_DEPTH, type_at};
use crate::word;
use epl_lexer::Token;
use epl_tree::{Boxed, Entries, Entry, Expr, ExprNode, Exprs, List, Text};
use std::alloc::{AllocError, Global};

#[tactic(auto)]
fn named_of(name: Text, arguments: Option<Exprs>) -> ExprNode
    ensures { result ≡ tree.named_of (name, arguments) }
{
    match arguments {
        Some(args) => ExprNode::Call(name, args),
        None => ExprNode::Name(name),
    }
}

impl<
    't,
    F: Fn(Global, &[Token], usize, Part, usize) -> Result<Option<(Expr, usize)>, AllocError>,
> Rules<'t, F> {
    #[tactic(auto, unfolding(grammar_forms::specs::Reader::behind))]
    fn next_arg(&self, at: usize) -> Result<Option<(Expr, usize)>, AllocError>
        requires { Nests self.now.depth (F.pre self.now.deeper) (F.post self.now.deeper) }
        ensures { IfOk result (λ r. r ≡ behind (row_of self.now.tokens.now) word.comma (expr_at self.now.tokens.now self.now.depth part.Whole) at) }
    {
        let Some((_, at)) = sign_at(self.tokens, word::COMMA, at) else {
            return Ok(None);
        };
        self.deeper_at(Part::Whole, at)
    }

    #[tactic(auto, using(grammar_forms::proofs::Turns::turns))]
    fn more_args(&self, from: usize) -> Result<(Exprs, usize), AllocError>
        requires { Nests self.now.depth (F.pre self.now.deeper) (F.post self.now.deeper) }
        ensures { IfOk result (λ r. r ≡ many (behind (row_of self.now.tokens.now) word.comma (expr_at self.now.tokens.now self.now.depth part.Whole)) (length self.now.tokens.now - from) from []) }
    {
        let mut found = List::new(self.alloc);
        let mut at = from;
        'items: for _turn in from..self.tokens.len() {
            let Some((item, next)) = self.next_arg(at)? else {
                return Ok((found, at));
            };
            found.push(item)?;
            at = next;
        }
        Ok((found, at))
    }

    #[tactic(auto, unfolding(crate::specs::Reading::args, grammar_forms::specs::Reader::separated))]
    fn args(&self, at: usize) -> Result<Option<(Exprs, usize)>, AllocError>
        requires { Nests self.now.depth (F.pre self.now.deeper) (F.post self.now.deeper) }
        ensures { IfOk result (λ r. r ≡ read.args self.now.tokens.now (expr_at self.now.tokens.now self.now.depth) at) }
    {
        let Some((first, at)) = self.deeper_at(Part::Whole, at)? else {
            return Ok(None);
        };
        let (mut all, end) = self.more_args(at)?;
        all.insert(0, first)?;
        Ok(Some((all, end)))
    }

    #[tactic(auto, unfolding(crate::specs::Reader::enclosed))]
    fn enclosed_args(
        &self,
        opening: u8,
        closing: u8,
        at: usize,
    ) -> Result<Option<(Exprs, usize)>, AllocError>
        requires { Nests self.now.depth (F.pre self.now.deeper) (F.post self.now.deeper) }
        ensures { IfOk result (λ r. r ≡ enclosed (row_of self.now.tokens.now) (sign opening) (sign closing) (read.args self.now.tokens.now (expr_at self.now.tokens.now self.now.depth)) at) }
    {
        let Some((_, at)) = sign_at(self.tokens, opening, at) else {
            return Ok(None);
        };
        if let Some((args, at)) = self.args(at)? {
            let Some((_, end)) = sign_at(self.tokens, closing, at) else {
                return Ok(None);
            };
            return Ok(Some((args, end)));
        }
        let Some((_, end)) = sign_at(self.tokens, closing, at) else {
            return Ok(None);
        };
        Ok(Some((List::new(self.alloc), end)))
    }

    /// Arguments in parentheses.
    #[tactic(auto, unfolding(crate::specs::Reading::arguments))]
    pub fn arguments(&self, at: usize) -> Result<Option<(Exprs, usize)>, AllocError>
        requires { Nests self.now.depth (F.pre self.now.deeper) (F.post self.now.deeper) }
        ensures { IfOk result (λ r. r ≡ read.arguments self.now.tokens.now (expr_at self.now.tokens.now self.now.depth) at) }
    {
        self.enclosed_args(word::PARENTHESIS, word::CLOSING_PARENTHESIS, at)
    }

    #[tactic(auto, unfolding(crate::specs::Reading::named))]
    fn named(&self, at: usize) -> Result<Option<(ExprNode, usize)>, AllocError>
        requires { Nests self.now.depth (F.pre self.now.deeper) (F.post self.now.deeper) }
        ensures { IfOk result (λ r. r ≡ read.named self.now.tokens.now (expr_at self.now.tokens.now self.now.depth) at) }
    {
        let Some((name, at)) = name_at(self.alloc, self.tokens, at)? else {
            return Ok(None);
        };
        match self.arguments(at)? {
            Some((args, end)) => Ok(Some((named_of(name, Some(args)), end))),
            None => Ok(Some((named_of(name, None), at))),
        }
    }

    #[tactic(auto, unfolding(grammar_forms::specs::Reader::behind))]
    fn key_value(&self, at: usize) -> Result<Option<(Expr, usize)>, AllocError>
        requires { Nests self.now.depth (F.pre self.now.deeper) (F.post self.now.deeper) }
        ensures { IfOk result (λ r. r ≡ behind (row_of self.now.tokens.now) word.colon (expr_at self.now.tokens.now self.now.depth part.Whole) at) }
    {
        let Some((_, at)) = sign_at(self.tokens, word::COLON, at) else {
            return Ok(None);
        };
        self.deeper_at(Part::Whole, at)
    }

    #[tactic(auto, unfolding(crate::specs::Reading::entry_at))]
    fn entry(&self, at: usize) -> Result<Option<(Entry, usize)>, AllocError>
        requires { Nests self.now.depth (F.pre self.now.deeper) (F.post self.now.deeper) }
        ensures { IfOk result (λ r. r ≡ read.entry_at self.now.tokens.now (expr_at self.now.tokens.now self.now.depth) at) }
    {
        let Some((key, at)) = self.deeper_at(Part::Whole, at)? else {
            return Ok(None);
        };
        let Some((value, at)) = self.key_value(at)? else {
            return Ok(None);
        };
        Ok(Some((Entry { key, value }, at)))
    }

    #[tactic(auto, unfolding(grammar_forms::specs::Reader::behind))]
    fn next_entry(&self, at: usize) -> Result<Option<(Entry, usize)>, AllocError>
        requires { Nests self.now.depth (F.pre self.now.deeper) (F.post self.now.deeper) }
        ensures { IfOk result (λ r. r ≡ behind (row_of self.now.tokens.now) word.comma (read.entry_at self.now.tokens.now (expr_at self.now.tokens.now self.now.depth)) at) }
    {
        let Some((_, at)) = sign_at(self.tokens, word::COMMA, at) else {
            return Ok(None);
        };
        self.entry(at)
    }

    #[tactic(auto, using(grammar_forms::proofs::Turns::turns))]
    fn more_entries(&self, from: usize) -> Result<(Entries, usize), AllocError>
        requires { Nests self.now.depth (F.pre self.now.deeper) (F.post self.now.deeper) }
        ensures { IfOk result (λ r. r ≡ many (behind (row_of self.now.tokens.now) word.comma (read.entry_at self.now.tokens.now (expr_at self.now.tokens.now self.now.depth))) (length self.now.tokens.now - from) from []) }
    {
        let mut found = List::new(self.alloc);
        let mut at = from;
        'items: for _turn in from..self.tokens.len() {
            let Some((item, next)) = self.next_entry(at)? else {
                return Ok((found, at));
            };
            found.push(item)?;
            at = next;
        }
        Ok((found, at))
    }

    #[tactic(auto, unfolding(crate::specs::Reading::entries, grammar_forms::specs::Reader::separated))]
    fn entries(&self, at: usize) -> Result<Option<(Entries, usize)>, AllocError>
        requires { Nests self.now.depth (F.pre self.now.deeper) (F.post self.now.deeper) }
        ensures { IfOk result (λ r. r ≡ read.entries self.now.tokens.now (expr_at self.now.tokens.now self.now.depth) at) }
    {
        let Some((first, at)) = self.entry(at)? else {
            return Ok(None);
        };
        let (mut all, end) = self.more_entries(at)?;
        all.insert(0, first)?;
        Ok(Some((all, end)))
    }

    #[tactic(auto, unfolding(crate::specs::Reader::enclosed))]
    fn enclosed_entries(&self, at: usize) -> Result<Option<(Entries, usize)>, AllocError>
        requires { Nests self.now.depth (F.pre self.now.deeper) (F.post self.now.deeper) }
        ensures { IfOk result (λ r. r ≡ enclosed (row_of self.now.tokens.now) word.brace word.closing_brace (read.entries self.now.tokens.now (expr_at self.now.tokens.now self.now.depth)) at) }
    {
        let Some((_, at)) = sign_at(self.tokens, word::BRACE, at) else {
            return Ok(None);
        };
        if let Some((entries, at)) = self.entries(at)? {
            let Some((_, end)) = sign_at(self.tokens, word::CLOSING_BRACE, at) else {
                return Ok(None);
            };
            return Ok(Some((entries, end)));
        }
        let Some((_, end)) = sign_at(self.tokens, word::CLOSING_BRACE, at) else {
            return Ok(None);
        };
        Ok(Some((List::new(self.alloc), end)))
    }

    #[tactic(auto, unfolding(crate::specs::Reading::collection))]
    fn collection(&self, at: usize) -> Result<Option<(ExprNode, usize)>, AllocError>
        requires { Nests self.now.depth (F.pre self.now.deeper) (F.post self.now.deeper) }
        ensures { IfOk result (λ r. r ≡ read.collection self.now.tokens.now (expr_at self.now.tokens.now self.now.depth) at) }
    {
        if let Some((items, end)) = self.enclosed_args(word::BRACKET, word::CLOSING_BRACKET, at)? {
            return Ok(Some((ExprNode::Sequence(items), end)));
        }
        let Some((entries, end)) = self.enclosed_entries(at)? else {
            return Ok(None);
        };
        Ok(Some((ExprNode::Dictionary(entries), end)))
    }

    #[tactic(auto, unfolding(grammar_forms::specs::Reader::within))]
    fn context_args(&self, at: usize) -> Result<Option<(Exprs, usize)>, AllocError>
        requires { Nests self.now.depth (F.pre self.now.deeper) (F.post self.now.deeper) }
        ensures { IfOk result (λ r. r ≡ within (row_of self.now.tokens.now) word.parenthesis word.closing_parenthesis (read.args self.now.tokens.now (expr_at self.now.tokens.now self.now.depth)) at) }
    {
        let Some((_, at)) = sign_at(self.tokens, word::PARENTHESIS, at) else {
            return Ok(None);
        };
        let Some((args, at)) = self.args(at)? else {
            return Ok(None);
        };
        let Some((_, end)) = sign_at(self.tokens, word::CLOSING_PARENTHESIS, at) else {
            return Ok(None);
        };
        Ok(Some((args, end)))
    }

    #[tactic(auto, unfolding(crate::specs::Reading::context_tail))]
    fn context_tail(&self, at: usize) -> Result<Option<(ExprNode, usize)>, AllocError>
        requires { Nests self.now.depth (F.pre self.now.deeper) (F.post self.now.deeper) }
        ensures { IfOk result (λ r. r ≡ read.context_tail self.now.tokens.now (expr_at self.now.tokens.now self.now.depth) at) }
    {
        if let Some((args, end)) = self.context_args(at)? {
            return Ok(Some((ExprNode::Context(args), end)));
        }
        current_at(self.alloc, self.tokens, at)
    }

    #[tactic(auto, unfolding(crate::specs::Reading::context, grammar_forms::specs::Reader::behind))]
    fn context(&self, at: usize) -> Result<Option<(ExprNode, usize)>, AllocError>
        requires { Nests self.now.depth (F.pre self.now.deeper) (F.post self.now.deeper) }
        ensures { IfOk result (λ r. r ≡ read.context self.now.tokens.now (expr_at self.now.tokens.now self.now.depth) at) }
    {
        let Some((_, at)) = keyword_at(self.tokens, word::CONTEXT, at) else {
            return Ok(None);
        };
        self.context_tail(at)
    }

    #[tactic(auto, unfolding(crate::specs::Reading::new_default, grammar_forms::specs::Reader::behind))]
    fn default_of(&self, at: usize) -> Result<Option<(ExprNode, usize)>, AllocError>
        requires { Nests self.now.depth (F.pre self.now.deeper) (F.post self.now.deeper) }
        ensures { IfOk result (λ r. r ≡ read.new_default self.now.tokens.now at) }
    {
        let Some((_, at)) = keyword_at(self.tokens, word::NEW, at) else {
            return Ok(None);
        };
        let Some((shape, end)) = type_at(self.alloc, self.tokens, MAX_DEPTH, at)? else {
            return Ok(None);
        };
        Ok(Some((ExprNode::New(shape), end)))
    }

    #[tactic(auto, unfolding(crate::specs::Reading::group, grammar_forms::specs::Reader::within))]
    fn group(&self, at: usize) -> Result<Option<(ExprNode, usize)>, AllocError>
        requires { Nests self.now.depth (F.pre self.now.deeper) (F.post self.now.deeper) }
        ensures { IfOk result (λ r. r ≡ read.group self.now.tokens.now (expr_at self.now.tokens.now self.now.depth) at) }
    {
        let Some((_, at)) = sign_at(self.tokens, word::PARENTHESIS, at) else {
            return Ok(None);
        };
        let Some((inner, at)) = self.deeper_at(Part::Whole, at)? else {
            return Ok(None);
        };
        let Some((_, end)) = sign_at(self.tokens, word::CLOSING_PARENTHESIS, at) else {
            return Ok(None);
        };
        Ok(Some((ExprNode::Group(Boxed::new(self.alloc, inner)?), end)))
    }

    #[tactic(auto, unfolding(crate::specs::Reading::bracketed_node))]
    fn bracketed(&self, at: usize) -> Result<Option<(ExprNode, usize)>, AllocError>
        requires { Nests self.now.depth (F.pre self.now.deeper) (F.post self.now.deeper) }
        ensures { IfOk result (λ r. r ≡ read.bracketed_node self.now.tokens.now (expr_at self.now.tokens.now self.now.depth) at) }
    {
        if let Some((node, end)) = self.collection(at)? {
            return Ok(Some((node, end)));
        }
        if let Some((node, end)) = self.default_of(at)? {
            return Ok(Some((node, end)));
        }
        if let Some((node, end)) = self.context(at)? {
            return Ok(Some((node, end)));
        }
        self.group(at)
    }

    #[tactic(auto, unfolding(crate::specs::Reading::primary_node))]
    fn primary_node(&self, at: usize) -> Result<Option<(ExprNode, usize)>, AllocError>
        requires { Nests self.now.depth (F.pre self.now.deeper) (F.post self.now.deeper) }
        ensures { IfOk result (λ r. r ≡ read.primary_node self.now.tokens.now (expr_at self.now.tokens.now self.now.depth) at) }
    {
        if let Some((node, end)) = literal_at(self.alloc, self.tokens, at)? {
            return Ok(Some((node, end)));
        }
        if let Some((node, end)) = self.named(at)? {
            return Ok(Some((node, end)));
        }
        self.bracketed(at)
    }

    #[tactic(auto, unfolding(crate::specs::Reading::primary))]
    pub fn primary(&self, at: usize) -> Result<Option<(Expr, usize)>, AllocError>
        requires { Nests self.now.depth (F.pre self.now.deeper) (F.post self.now.deeper) }
        ensures { IfOk result (λ r. r ≡ read.primary self.now.tokens.now (expr_at self.now.tokens.now self.now.depth) at) }
    {
        let spot = spot_at(self.tokens, at);
        let Some((node, end)) = self.primary_node(at)? else {
            return Ok(None);
        };
        Ok(Some((Expr { spot, node }, end)))
    }
}
