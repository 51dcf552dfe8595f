ghost use Rattle.std.specs.Prelude.{◌≡◌, ◌-◌, [], length, IfOk};
ghost use Rattle.grammar_forms.specs.Reader.{and_many, and_optional, behind, within, many};
ghost use Rattle.primary_parser.specs.Tokens.{row_of, sign, keyword};
ghost use Rattle.primary_parser.specs.Words as word;
ghost use Rattle.primary_parser.specs.Grammar as tree;
ghost use Rattle.primary_parser.specs.Reader.{enclosed, joined};
ghost use Rattle.primary_parser.specs.Reading as read;
ghost use Rattle.primary_parser.specs.Reading.{expr_at};
ghost use Rattle.primary_parser.specs.declared.part.Part.TheVariants as part;
ghost use Rattle.primary_parser.specs.Nests.{Nests};

use crate::operator::{additive_at, multiplicative_at};
use crate::rules::OperatorRules;
use epl_lexer::Token;
use epl_tree::{Boxed, Expr, ExprNode, Link, Links, List, Spot};
use primary_parser::token::{sign_at, spot_at};
use primary_parser::{Part, word};
use std::alloc::{AllocError, Global};

fn product_of(alloc: Global, spot: Spot, first: Expr, rest: Links) -> Result<Expr, AllocError>
    ensures { IfOk result (λ e. e ≡ tree.product_of spot (first, rest)) }
{
    if rest.len() == 0 {
        return Ok(first);
    }
    let node = ExprNode::Product(Boxed::new(alloc, first)?, rest);
    Ok(Expr { spot, node })
}

fn sum_of(alloc: Global, spot: Spot, first: Expr, rest: Links) -> Result<Expr, AllocError>
    ensures { IfOk result (λ e. e ≡ tree.sum_of spot (first, rest)) }
{
    if rest.len() == 0 {
        return Ok(first);
    }
    let node = ExprNode::Sum(Boxed::new(alloc, first)?, rest);
    Ok(Expr { spot, node })
}

impl<
    't,
    F: Fn(Global, &[Token], usize, Part, usize) -> Result<Option<(Expr, usize)>, AllocError>,
> OperatorRules<'t, F> {
    #[tactic(auto, unfolding(primary_parser::specs::Reading::signed, grammar_forms::specs::Reader::behind))]
    fn signed(&self, at: usize) -> Result<Option<(Expr, usize)>, AllocError>
        requires { Nests self.now.primaries.depth (F.pre self.now.primaries.deeper) (F.post self.now.primaries.deeper) }
        ensures { IfOk result (λ r. r ≡ read.signed self.now.primaries.tokens.now (expr_at self.now.primaries.tokens.now self.now.primaries.depth) at) }
    {
        let spot = spot_at(self.primaries.tokens, at);
        let Some((_, at)) = sign_at(self.primaries.tokens, word::MINUS, at) else {
            return Ok(None);
        };
        let Some((operand, end)) = self.primaries.deeper_at(Part::Signed, at)? else {
            return Ok(None);
        };
        let node = ExprNode::Minus(Boxed::new(self.primaries.alloc, operand)?);
        Ok(Some((Expr { spot, node }, end)))
    }

    #[tactic(auto, unfolding(primary_parser::specs::Reading::unary))]
    pub(crate) fn unary(&self, at: usize) -> Result<Option<(Expr, usize)>, AllocError>
        requires { Nests self.now.primaries.depth (F.pre self.now.primaries.deeper) (F.post self.now.primaries.deeper) }
        ensures { IfOk result (λ r. r ≡ read.unary self.now.primaries.tokens.now (expr_at self.now.primaries.tokens.now self.now.primaries.depth) at) }
    {
        if let Some((expr, end)) = self.signed(at)? {
            return Ok(Some((expr, end)));
        }
        self.postfix(at)
    }

    #[tactic(auto, unfolding(primary_parser::specs::Reading::factor))]
    fn factor(&self, at: usize) -> Result<Option<(Link, usize)>, AllocError>
        requires { Nests self.now.primaries.depth (F.pre self.now.primaries.deeper) (F.post self.now.primaries.deeper) }
        ensures { IfOk result (λ r. r ≡ read.factor self.now.primaries.tokens.now (expr_at self.now.primaries.tokens.now self.now.primaries.depth) at) }
    {
        let Some((operator, at)) = multiplicative_at(self.primaries.tokens, at) else {
            return Ok(None);
        };
        let Some((operand, end)) = self.unary(at)? else {
            return Ok(None);
        };
        Ok(Some((Link { operator, operand }, end)))
    }

    #[tactic(auto, using(grammar_forms::proofs::Turns::turns))]
    fn factors(&self, from: usize) -> Result<(Links, usize), AllocError>
        requires { Nests self.now.primaries.depth (F.pre self.now.primaries.deeper) (F.post self.now.primaries.deeper) }
        ensures { IfOk result (λ r. r ≡ many (read.factor self.now.primaries.tokens.now (expr_at self.now.primaries.tokens.now self.now.primaries.depth)) (length self.now.primaries.tokens.now - from) from []) }
    {
        let mut found = List::new(self.primaries.alloc);
        let mut at = from;
        'items: for _turn in from..self.primaries.tokens.len() {
            let Some((item, next)) = self.factor(at)? else {
                return Ok((found, at));
            };
            found.push(item)?;
            at = next;
        }
        Ok((found, at))
    }

    #[tactic(auto, unfolding(primary_parser::specs::Reading::product))]
    pub(crate) fn product(&self, at: usize) -> Result<Option<(Expr, usize)>, AllocError>
        requires { Nests self.now.primaries.depth (F.pre self.now.primaries.deeper) (F.post self.now.primaries.deeper) }
        ensures { IfOk result (λ r. r ≡ read.product self.now.primaries.tokens.now (expr_at self.now.primaries.tokens.now self.now.primaries.depth) at) }
    {
        let spot = spot_at(self.primaries.tokens, at);
        let Some((first, at)) = self.unary(at)? else {
            return Ok(None);
        };
        let (rest, end) = self.factors(at)?;
        Ok(Some((product_of(self.primaries.alloc, spot, first, rest)?, end)))
    }

    #[tactic(auto, unfolding(primary_parser::specs::Reading::term))]
    fn term(&self, at: usize) -> Result<Option<(Link, usize)>, AllocError>
        requires { Nests self.now.primaries.depth (F.pre self.now.primaries.deeper) (F.post self.now.primaries.deeper) }
        ensures { IfOk result (λ r. r ≡ read.term self.now.primaries.tokens.now (expr_at self.now.primaries.tokens.now self.now.primaries.depth) at) }
    {
        let Some((operator, at)) = additive_at(self.primaries.tokens, at) else {
            return Ok(None);
        };
        let Some((operand, end)) = self.product(at)? else {
            return Ok(None);
        };
        Ok(Some((Link { operator, operand }, end)))
    }

    #[tactic(auto, using(grammar_forms::proofs::Turns::turns))]
    fn terms(&self, from: usize) -> Result<(Links, usize), AllocError>
        requires { Nests self.now.primaries.depth (F.pre self.now.primaries.deeper) (F.post self.now.primaries.deeper) }
        ensures { IfOk result (λ r. r ≡ many (read.term self.now.primaries.tokens.now (expr_at self.now.primaries.tokens.now self.now.primaries.depth)) (length self.now.primaries.tokens.now - from) from []) }
    {
        let mut found = List::new(self.primaries.alloc);
        let mut at = from;
        'items: for _turn in from..self.primaries.tokens.len() {
            let Some((item, next)) = self.term(at)? else {
                return Ok((found, at));
            };
            found.push(item)?;
            at = next;
        }
        Ok((found, at))
    }

    #[tactic(auto, unfolding(primary_parser::specs::Reading::sum))]
    pub(crate) fn sum(&self, at: usize) -> Result<Option<(Expr, usize)>, AllocError>
        requires { Nests self.now.primaries.depth (F.pre self.now.primaries.deeper) (F.post self.now.primaries.deeper) }
        ensures { IfOk result (λ r. r ≡ read.sum self.now.primaries.tokens.now (expr_at self.now.primaries.tokens.now self.now.primaries.depth) at) }
    {
        let spot = spot_at(self.primaries.tokens, at);
        let Some((first, at)) = self.product(at)? else {
            return Ok(None);
        };
        let (rest, end) = self.terms(at)?;
        Ok(Some((sum_of(self.primaries.alloc, spot, first, rest)?, end)))
    }
}
