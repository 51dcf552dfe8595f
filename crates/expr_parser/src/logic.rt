ghost use Rattle.std.specs.Prelude.{◌≡◌, ◌-◌, [], length, IfOk};
ghost use Rattle.grammar_forms.specs.Reader.{and_many, and_optional, behind, within, many};
ghost use Rattle.primary_parser.specs.Tokens.{row_of, sign, keyword};
ghost use Rattle.primary_parser.specs.Words as word;
ghost use Rattle.primary_parser.specs.Grammar as tree;
ghost use Rattle.primary_parser.specs.Reader.{enclosed, joined};
ghost use Rattle.primary_parser.specs.Reading as read;
ghost use Rattle.primary_parser.specs.Reading.{expr_at};
ghost use Rattle.primary_parser.specs.declared.part.Part.TheVariants as part;
ghost use Rattle.primary_parser.specs.Nests.{Nests};
ghost use Rattle.epl_tree.specs.declared.expression.ExprNode.TheVariants as node;

use crate::operator::comparison_at;
use crate::rules::OperatorRules;
use epl_lexer::Token;
use epl_tree::{Boxed, Comparison, Expr, ExprNode, Exprs, List, Spot};
use primary_parser::token::{keyword_at, spot_at};
use primary_parser::{Part, word};
use std::alloc::{AllocError, Global};

fn compare_of(
    alloc: Global,
    spot: Spot,
    left: Expr,
    operator: Comparison,
    right: Expr,
) -> Result<Expr, AllocError>
    ensures { IfOk result (λ e. e ≡ tree.expr spot (node.Compare left operator right)) }
{
    let left = Boxed::new(alloc, left)?;
    let node = ExprNode::Compare(left, operator, Boxed::new(alloc, right)?);
    Ok(Expr { spot, node })
}

fn and_of(alloc: Global, spot: Spot, first: Expr, rest: Exprs) -> Result<Expr, AllocError>
    ensures { IfOk result (λ e. e ≡ tree.and_of spot (first, rest)) }
{
    if rest.len() == 0 {
        return Ok(first);
    }
    let node = ExprNode::And(Boxed::new(alloc, first)?, rest);
    Ok(Expr { spot, node })
}

fn xor_of(alloc: Global, spot: Spot, first: Expr, rest: Exprs) -> Result<Expr, AllocError>
    ensures { IfOk result (λ e. e ≡ tree.xor_of spot (first, rest)) }
{
    if rest.len() == 0 {
        return Ok(first);
    }
    let node = ExprNode::Xor(Boxed::new(alloc, first)?, rest);
    Ok(Expr { spot, node })
}

fn or_of(alloc: Global, spot: Spot, first: Expr, rest: Exprs) -> Result<Expr, AllocError>
    ensures { IfOk result (λ e. e ≡ tree.or_of spot (first, rest)) }
{
    if rest.len() == 0 {
        return Ok(first);
    }
    let node = ExprNode::Or(Boxed::new(alloc, first)?, rest);
    Ok(Expr { spot, node })
}

impl<
    't,
    F: Fn(Global, &[Token], usize, Part, usize) -> Result<Option<(Expr, usize)>, AllocError>,
> OperatorRules<'t, F> {
    #[tactic(auto, unfolding(primary_parser::specs::Reading::right_side))]
    fn right_side(&self, at: usize) -> Result<Option<((Comparison, Expr), usize)>, AllocError>
        requires { Nests self.now.primaries.depth (F.pre self.now.primaries.deeper) (F.post self.now.primaries.deeper) }
        ensures { IfOk result (λ r. r ≡ read.right_side self.now.primaries.tokens.now (expr_at self.now.primaries.tokens.now self.now.primaries.depth) at) }
    {
        let Some((operator, at)) = comparison_at(self.primaries.tokens, at) else {
            return Ok(None);
        };
        let Some((right, end)) = self.sum(at)? else {
            return Ok(None);
        };
        Ok(Some(((operator, right), end)))
    }

    #[tactic(auto, unfolding(primary_parser::specs::Reading::compared))]
    fn compared(&self, at: usize) -> Result<Option<(Expr, usize)>, AllocError>
        requires { Nests self.now.primaries.depth (F.pre self.now.primaries.deeper) (F.post self.now.primaries.deeper) }
        ensures { IfOk result (λ r. r ≡ read.compared self.now.primaries.tokens.now (expr_at self.now.primaries.tokens.now self.now.primaries.depth) at) }
    {
        let spot = spot_at(self.primaries.tokens, at);
        let Some((left, at)) = self.sum(at)? else {
            return Ok(None);
        };
        let Some(((operator, right), end)) = self.right_side(at)? else {
            return Ok(Some((left, at)));
        };
        Ok(Some((
            compare_of(self.primaries.alloc, spot, left, operator, right)?,
            end,
        )))
    }

    #[tactic(auto, unfolding(primary_parser::specs::Reading::negated, grammar_forms::specs::Reader::behind))]
    fn negated(&self, at: usize) -> Result<Option<(Expr, usize)>, AllocError>
        requires { Nests self.now.primaries.depth (F.pre self.now.primaries.deeper) (F.post self.now.primaries.deeper) }
        ensures { IfOk result (λ r. r ≡ read.negated self.now.primaries.tokens.now (expr_at self.now.primaries.tokens.now self.now.primaries.depth) at) }
    {
        let spot = spot_at(self.primaries.tokens, at);
        let Some((_, at)) = keyword_at(self.primaries.tokens, word::NOT, at) else {
            return Ok(None);
        };
        let Some((operand, end)) = self.primaries.deeper_at(Part::Negated, at)? else {
            return Ok(None);
        };
        let node = ExprNode::Not(Boxed::new(self.primaries.alloc, operand)?);
        Ok(Some((Expr { spot, node }, end)))
    }

    #[tactic(auto, unfolding(primary_parser::specs::Reading::negation))]
    pub(crate) fn negation(&self, at: usize) -> Result<Option<(Expr, usize)>, AllocError>
        requires { Nests self.now.primaries.depth (F.pre self.now.primaries.deeper) (F.post self.now.primaries.deeper) }
        ensures { IfOk result (λ r. r ≡ read.negation self.now.primaries.tokens.now (expr_at self.now.primaries.tokens.now self.now.primaries.depth) at) }
    {
        if let Some((expr, end)) = self.negated(at)? {
            return Ok(Some((expr, end)));
        }
        self.compared(at)
    }

    #[tactic(auto, unfolding(grammar_forms::specs::Reader::behind))]
    fn next_and(&self, at: usize) -> Result<Option<(Expr, usize)>, AllocError>
        requires { Nests self.now.primaries.depth (F.pre self.now.primaries.deeper) (F.post self.now.primaries.deeper) }
        ensures { IfOk result (λ r. r ≡ behind (row_of self.now.primaries.tokens.now) word.and_word (read.negation self.now.primaries.tokens.now (expr_at self.now.primaries.tokens.now self.now.primaries.depth)) at) }
    {
        let Some((_, at)) = keyword_at(self.primaries.tokens, word::AND, at) else {
            return Ok(None);
        };
        self.negation(at)
    }

    #[tactic(auto, using(grammar_forms::proofs::Turns::turns))]
    fn more_and(&self, from: usize) -> Result<(Exprs, usize), AllocError>
        requires { Nests self.now.primaries.depth (F.pre self.now.primaries.deeper) (F.post self.now.primaries.deeper) }
        ensures { IfOk result (λ r. r ≡ many (behind (row_of self.now.primaries.tokens.now) word.and_word (read.negation self.now.primaries.tokens.now (expr_at self.now.primaries.tokens.now self.now.primaries.depth))) (length self.now.primaries.tokens.now - from) from []) }
    {
        let mut found = List::new(self.primaries.alloc);
        let mut at = from;
        'items: for _turn in from..self.primaries.tokens.len() {
            let Some((item, next)) = self.next_and(at)? else {
                return Ok((found, at));
            };
            found.push(item)?;
            at = next;
        }
        Ok((found, at))
    }

    #[tactic(auto, unfolding(primary_parser::specs::Reading::conjunction, primary_parser::specs::Reader::joined))]
    pub(crate) fn conjunction(&self, at: usize) -> Result<Option<(Expr, usize)>, AllocError>
        requires { Nests self.now.primaries.depth (F.pre self.now.primaries.deeper) (F.post self.now.primaries.deeper) }
        ensures { IfOk result (λ r. r ≡ read.conjunction self.now.primaries.tokens.now (expr_at self.now.primaries.tokens.now self.now.primaries.depth) at) }
    {
        let spot = spot_at(self.primaries.tokens, at);
        let Some((first, at)) = self.negation(at)? else {
            return Ok(None);
        };
        let (rest, end) = self.more_and(at)?;
        Ok(Some((and_of(self.primaries.alloc, spot, first, rest)?, end)))
    }

    #[tactic(auto, unfolding(grammar_forms::specs::Reader::behind))]
    fn next_xor(&self, at: usize) -> Result<Option<(Expr, usize)>, AllocError>
        requires { Nests self.now.primaries.depth (F.pre self.now.primaries.deeper) (F.post self.now.primaries.deeper) }
        ensures { IfOk result (λ r. r ≡ behind (row_of self.now.primaries.tokens.now) word.xor_word (read.conjunction self.now.primaries.tokens.now (expr_at self.now.primaries.tokens.now self.now.primaries.depth)) at) }
    {
        let Some((_, at)) = keyword_at(self.primaries.tokens, word::XOR, at) else {
            return Ok(None);
        };
        self.conjunction(at)
    }

    #[tactic(auto, using(grammar_forms::proofs::Turns::turns))]
    fn more_xor(&self, from: usize) -> Result<(Exprs, usize), AllocError>
        requires { Nests self.now.primaries.depth (F.pre self.now.primaries.deeper) (F.post self.now.primaries.deeper) }
        ensures { IfOk result (λ r. r ≡ many (behind (row_of self.now.primaries.tokens.now) word.xor_word (read.conjunction self.now.primaries.tokens.now (expr_at self.now.primaries.tokens.now self.now.primaries.depth))) (length self.now.primaries.tokens.now - from) from []) }
    {
        let mut found = List::new(self.primaries.alloc);
        let mut at = from;
        'items: for _turn in from..self.primaries.tokens.len() {
            let Some((item, next)) = self.next_xor(at)? else {
                return Ok((found, at));
            };
            found.push(item)?;
            at = next;
        }
        Ok((found, at))
    }

    #[tactic(auto, unfolding(primary_parser::specs::Reading::exclusive, primary_parser::specs::Reader::joined))]
    pub(crate) fn exclusive(&self, at: usize) -> Result<Option<(Expr, usize)>, AllocError>
        requires { Nests self.now.primaries.depth (F.pre self.now.primaries.deeper) (F.post self.now.primaries.deeper) }
        ensures { IfOk result (λ r. r ≡ read.exclusive self.now.primaries.tokens.now (expr_at self.now.primaries.tokens.now self.now.primaries.depth) at) }
    {
        let spot = spot_at(self.primaries.tokens, at);
        let Some((first, at)) = self.conjunction(at)? else {
            return Ok(None);
        };
        let (rest, end) = self.more_xor(at)?;
        Ok(Some((xor_of(self.primaries.alloc, spot, first, rest)?, end)))
    }

    #[tactic(auto, unfolding(grammar_forms::specs::Reader::behind))]
    fn next_or(&self, at: usize) -> Result<Option<(Expr, usize)>, AllocError>
        requires { Nests self.now.primaries.depth (F.pre self.now.primaries.deeper) (F.post self.now.primaries.deeper) }
        ensures { IfOk result (λ r. r ≡ behind (row_of self.now.primaries.tokens.now) word.or_word (read.exclusive self.now.primaries.tokens.now (expr_at self.now.primaries.tokens.now self.now.primaries.depth)) at) }
    {
        let Some((_, at)) = keyword_at(self.primaries.tokens, word::OR, at) else {
            return Ok(None);
        };
        self.exclusive(at)
    }

    #[tactic(auto, using(grammar_forms::proofs::Turns::turns))]
    fn more_or(&self, from: usize) -> Result<(Exprs, usize), AllocError>
        requires { Nests self.now.primaries.depth (F.pre self.now.primaries.deeper) (F.post self.now.primaries.deeper) }
        ensures { IfOk result (λ r. r ≡ many (behind (row_of self.now.primaries.tokens.now) word.or_word (read.exclusive self.now.primaries.tokens.now (expr_at self.now.primaries.tokens.now self.now.primaries.depth))) (length self.now.primaries.tokens.now - from) from []) }
    {
        let mut found = List::new(self.primaries.alloc);
        let mut at = from;
        'items: for _turn in from..self.primaries.tokens.len() {
            let Some((item, next)) = self.next_or(at)? else {
                return Ok((found, at));
            };
            found.push(item)?;
            at = next;
        }
        Ok((found, at))
    }

    #[tactic(auto, unfolding(primary_parser::specs::Reading::whole, primary_parser::specs::Reader::joined))]
    pub(crate) fn whole(&self, at: usize) -> Result<Option<(Expr, usize)>, AllocError>
        requires { Nests self.now.primaries.depth (F.pre self.now.primaries.deeper) (F.post self.now.primaries.deeper) }
        ensures { IfOk result (λ r. r ≡ read.whole self.now.primaries.tokens.now (expr_at self.now.primaries.tokens.now self.now.primaries.depth) at) }
    {
        let spot = spot_at(self.primaries.tokens, at);
        let Some((first, at)) = self.exclusive(at)? else {
            return Ok(None);
        };
        let (rest, end) = self.more_or(at)?;
        Ok(Some((or_of(self.primaries.alloc, spot, first, rest)?, end)))
    }

    pub(crate) fn part(&self, part: Part, at: usize) -> Result<Option<(Expr, usize)>, AllocError>
        requires { Nests self.now.primaries.depth (F.pre self.now.primaries.deeper) (F.post self.now.primaries.deeper) }
        ensures { IfOk result (λ r. r ≡ read.part_of self.now.primaries.tokens.now (expr_at self.now.primaries.tokens.now self.now.primaries.depth) part at) }
    {
        match part {
            Part::Whole => self.whole(at),
            Part::Negated => self.negation(at),
            Part::Sum => self.sum(at),
            Part::Signed => self.unary(at),
            Part::Postfix => self.postfix(at),
        }
    }
}
