ghost use Rattle.std.specs.Prelude.{◌≡◌, ◌-◌, [], length, IfOk};
ghost use Rattle.grammar_forms.specs.Reader.{and_many, and_optional, behind, within, many};
ghost use Rattle.primary_parser.specs.Tokens.{row_of, sign, keyword};
ghost use Rattle.primary_parser.specs.Words as word;
ghost use Rattle.primary_parser.specs.Grammar as tree;
ghost use Rattle.primary_parser.specs.Reader.{enclosed, joined};
ghost use Rattle.primary_parser.specs.Reading as read;
ghost use Rattle.primary_parser.specs.Reading.{expr_at};
ghost use Rattle.primary_parser.specs.declared.part.Part.TheVariants as part;
ghost use Rattle.primary_parser.specs.Nests.{Nests};

use crate::rules::OperatorRules;
use epl_lexer::Token;
use epl_tree::{Boxed, Expr, ExprNode, Exprs, List, Spot, Suffix, SuffixNode, Suffixes, Text};
use primary_parser::token::{name_at, sign_at, spot_at};
use primary_parser::{Part, word};
use std::alloc::{AllocError, Global};

fn member_of(name: Text, arguments: Option<Exprs>) -> SuffixNode
    ensures { result ≡ tree.member_of (name, arguments) }
{
    match arguments {
        Some(args) => SuffixNode::Method(name, args),
        None => SuffixNode::Field(name),
    }
}

fn postfix_of(alloc: Global, spot: Spot, first: Expr, rest: Suffixes) -> Result<Expr, AllocError>
    ensures { IfOk result (λ e. e ≡ tree.postfix_of spot (first, rest)) }
{
    if rest.len() == 0 {
        return Ok(first);
    }
    let node = ExprNode::Postfix(Boxed::new(alloc, first)?, rest);
    Ok(Expr { spot, node })
}

impl<
    't,
    F: Fn(Global, &[Token], usize, Part, usize) -> Result<Option<(Expr, usize)>, AllocError>,
> OperatorRules<'t, F> {
    #[tactic(auto, unfolding(primary_parser::specs::Reading::member))]
    fn member(&self, at: usize) -> Result<Option<((Text, Option<Exprs>), usize)>, AllocError>
        requires { Nests self.now.primaries.depth (F.pre self.now.primaries.deeper) (F.post self.now.primaries.deeper) }
        ensures { IfOk result (λ r. r ≡ read.member self.now.primaries.tokens.now (expr_at self.now.primaries.tokens.now self.now.primaries.depth) at) }
    {
        let Some((name, at)) = name_at(self.primaries.alloc, self.primaries.tokens, at)? else {
            return Ok(None);
        };
        match self.primaries.arguments(at)? {
            Some((args, end)) => Ok(Some(((name, Some(args)), end))),
            None => Ok(Some(((name, None), at))),
        }
    }

    #[tactic(auto, unfolding(primary_parser::specs::Reading::field_or_method, grammar_forms::specs::Reader::behind))]
    fn field_or_method(&self, at: usize) -> Result<Option<(SuffixNode, usize)>, AllocError>
        requires { Nests self.now.primaries.depth (F.pre self.now.primaries.deeper) (F.post self.now.primaries.deeper) }
        ensures { IfOk result (λ r. r ≡ read.field_or_method self.now.primaries.tokens.now (expr_at self.now.primaries.tokens.now self.now.primaries.depth) at) }
    {
        let Some((_, at)) = sign_at(self.primaries.tokens, word::POINT, at) else {
            return Ok(None);
        };
        let Some(((name, args), end)) = self.member(at)? else {
            return Ok(None);
        };
        Ok(Some((member_of(name, args), end)))
    }

    #[tactic(auto, unfolding(grammar_forms::specs::Reader::within))]
    fn index(&self, at: usize) -> Result<Option<(Expr, usize)>, AllocError>
        requires { Nests self.now.primaries.depth (F.pre self.now.primaries.deeper) (F.post self.now.primaries.deeper) }
        ensures { IfOk result (λ r. r ≡ within (row_of self.now.primaries.tokens.now) word.bracket word.closing_bracket (expr_at self.now.primaries.tokens.now self.now.primaries.depth part.Whole) at) }
    {
        let Some((_, at)) = sign_at(self.primaries.tokens, word::BRACKET, at) else {
            return Ok(None);
        };
        let Some((index, at)) = self.primaries.deeper_at(Part::Whole, at)? else {
            return Ok(None);
        };
        let Some((_, end)) = sign_at(self.primaries.tokens, word::CLOSING_BRACKET, at) else {
            return Ok(None);
        };
        Ok(Some((index, end)))
    }

    #[tactic(auto, unfolding(primary_parser::specs::Reading::suffix_node))]
    fn suffix_node(&self, at: usize) -> Result<Option<(SuffixNode, usize)>, AllocError>
        requires { Nests self.now.primaries.depth (F.pre self.now.primaries.deeper) (F.post self.now.primaries.deeper) }
        ensures { IfOk result (λ r. r ≡ read.suffix_node self.now.primaries.tokens.now (expr_at self.now.primaries.tokens.now self.now.primaries.depth) at) }
    {
        if let Some((node, end)) = self.field_or_method(at)? {
            return Ok(Some((node, end)));
        }
        let Some((index, end)) = self.index(at)? else {
            return Ok(None);
        };
        Ok(Some((
            SuffixNode::Index(Boxed::new(self.primaries.alloc, index)?),
            end,
        )))
    }

    #[tactic(auto, unfolding(primary_parser::specs::Reading::suffix_at))]
    fn suffix(&self, at: usize) -> Result<Option<(Suffix, usize)>, AllocError>
        requires { Nests self.now.primaries.depth (F.pre self.now.primaries.deeper) (F.post self.now.primaries.deeper) }
        ensures { IfOk result (λ r. r ≡ read.suffix_at self.now.primaries.tokens.now (expr_at self.now.primaries.tokens.now self.now.primaries.depth) at) }
    {
        let spot = spot_at(self.primaries.tokens, at);
        let Some((node, end)) = self.suffix_node(at)? else {
            return Ok(None);
        };
        Ok(Some((Suffix { spot, node }, end)))
    }

    #[tactic(auto, using(grammar_forms::proofs::Turns::turns))]
    fn suffixes(&self, from: usize) -> Result<(Suffixes, usize), AllocError>
        requires { Nests self.now.primaries.depth (F.pre self.now.primaries.deeper) (F.post self.now.primaries.deeper) }
        ensures { IfOk result (λ r. r ≡ many (read.suffix_at self.now.primaries.tokens.now (expr_at self.now.primaries.tokens.now self.now.primaries.depth)) (length self.now.primaries.tokens.now - from) from []) }
    {
        let mut found = List::new(self.primaries.alloc);
        let mut at = from;
        'items: for _turn in from..self.primaries.tokens.len() {
            let Some((item, next)) = self.suffix(at)? else {
                return Ok((found, at));
            };
            found.push(item)?;
            at = next;
        }
        Ok((found, at))
    }

    #[tactic(auto, unfolding(primary_parser::specs::Reading::postfix))]
    pub(crate) fn postfix(&self, at: usize) -> Result<Option<(Expr, usize)>, AllocError>
        requires { Nests self.now.primaries.depth (F.pre self.now.primaries.deeper) (F.post self.now.primaries.deeper) }
        ensures { IfOk result (λ r. r ≡ read.postfix self.now.primaries.tokens.now (expr_at self.now.primaries.tokens.now self.now.primaries.depth) at) }
    {
        let spot = spot_at(self.primaries.tokens, at);
        let Some((first, at)) = self.primaries.primary(at)? else {
            return Ok(None);
        };
        let (rest, end) = self.suffixes(at)?;
        Ok(Some((postfix_of(self.primaries.alloc, spot, first, rest)?, end)))
    }
}
