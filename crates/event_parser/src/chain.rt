//! Chains of `and`, `xor`, `or` and `->`.

ghost use Rattle.std.specs.Prelude.{◌≡◌, ◌-◌, [], length, IfOk};
ghost use Rattle.grammar_forms.specs.Reader.{behind, many};
ghost use Rattle.primary_parser.specs.Tokens.{row_of};
ghost use Rattle.primary_parser.specs.Words as word;
ghost use Rattle.template_parser.specs.Words as event_word;
ghost use Rattle.event_parser.specs.Grammar as tree;
ghost use Rattle.event_parser.specs.Reading as read;
ghost use Rattle.event_parser.specs.Reading.{event_at};
ghost use Rattle.event_parser.specs.Nests.{NestsEvents};

use crate::part::EventPart;
use crate::rules::EventRules;
use epl_lexer::Token;
use epl_tree::{Boxed, EventExpr, EventExprs, EventNode, List, Spot};
use primary_parser::token::{keyword_at, sign_at, spot_at};
use std::alloc::{AllocError, Global};
use template_parser::word;

fn and_of(
    alloc: Global,
    spot: Spot,
    first: EventExpr,
    rest: EventExprs,
) -> Result<EventExpr, AllocError>
    ensures { IfOk result (λ e. e ≡ tree.and_of spot (first, rest)) }
{
    if rest.len() == 0 {
        return Ok(first);
    }
    let node = EventNode::And(Boxed::new(alloc, first)?, rest);
    Ok(EventExpr { spot, node })
}

fn xor_of(
    alloc: Global,
    spot: Spot,
    first: EventExpr,
    rest: EventExprs,
) -> Result<EventExpr, AllocError>
    ensures { IfOk result (λ e. e ≡ tree.xor_of spot (first, rest)) }
{
    if rest.len() == 0 {
        return Ok(first);
    }
    let node = EventNode::Xor(Boxed::new(alloc, first)?, rest);
    Ok(EventExpr { spot, node })
}

fn or_of(
    alloc: Global,
    spot: Spot,
    first: EventExpr,
    rest: EventExprs,
) -> Result<EventExpr, AllocError>
    ensures { IfOk result (λ e. e ≡ tree.or_of spot (first, rest)) }
{
    if rest.len() == 0 {
        return Ok(first);
    }
    let node = EventNode::Or(Boxed::new(alloc, first)?, rest);
    Ok(EventExpr { spot, node })
}

fn followed_of(
    alloc: Global,
    spot: Spot,
    first: EventExpr,
    rest: EventExprs,
) -> Result<EventExpr, AllocError>
    ensures { IfOk result (λ e. e ≡ tree.followed_of spot (first, rest)) }
{
    if rest.len() == 0 {
        return Ok(first);
    }
    let node = EventNode::Followed(Boxed::new(alloc, first)?, rest);
    Ok(EventExpr { spot, node })
}

impl<
    't,
    F: Fn(
        Global,
        &[Token],
        usize,
        EventPart,
        usize,
    ) -> Result<Option<(EventExpr, usize)>, AllocError>,
> EventRules<'t, F> {
    #[tactic(auto, unfolding(grammar_forms::specs::Reader::behind))]
    fn next_and(&self, at: usize) -> Result<Option<(EventExpr, usize)>, AllocError>
        requires { NestsEvents self.now.depth (F.pre self.now.deeper) (F.post self.now.deeper) }
        ensures { IfOk result (λ r. r ≡ behind (row_of self.now.tokens.now) word.and_word (read.unary self.now.tokens.now (event_at self.now.tokens.now self.now.depth)) at) }
    {
        let Some((_, at)) = keyword_at(self.tokens, word::AND, at) else {
            return Ok(None);
        };
        self.unary(at)
    }

    #[tactic(auto, using(grammar_forms::proofs::Turns::turns))]
    fn more_and(&self, from: usize) -> Result<(EventExprs, usize), AllocError>
        requires { NestsEvents self.now.depth (F.pre self.now.deeper) (F.post self.now.deeper) }
        ensures { IfOk result (λ r. r ≡ many (behind (row_of self.now.tokens.now) word.and_word (read.unary self.now.tokens.now (event_at self.now.tokens.now self.now.depth))) (length self.now.tokens.now - from) from []) }
    {
        let mut found = List::new(self.alloc);
        let mut at = from;
        'items: for _turn in from..self.tokens.len() {
            let Some((item, next)) = self.next_and(at)? else {
                return Ok((found, at));
            };
            found.push(item)?;
            at = next;
        }
        Ok((found, at))
    }

    #[tactic(auto, unfolding(crate::specs::Reading::conjunction, primary_parser::specs::Reader::joined))]
    pub(crate) fn conjunction(&self, at: usize) -> Result<Option<(EventExpr, usize)>, AllocError>
        requires { NestsEvents self.now.depth (F.pre self.now.deeper) (F.post self.now.deeper) }
        ensures { IfOk result (λ r. r ≡ read.conjunction self.now.tokens.now (event_at self.now.tokens.now self.now.depth) at) }
    {
        let spot = spot_at(self.tokens, at);
        let Some((first, at)) = self.unary(at)? else {
            return Ok(None);
        };
        let (rest, end) = self.more_and(at)?;
        Ok(Some((and_of(self.alloc, spot, first, rest)?, end)))
    }

    #[tactic(auto, unfolding(grammar_forms::specs::Reader::behind))]
    fn next_xor(&self, at: usize) -> Result<Option<(EventExpr, usize)>, AllocError>
        requires { NestsEvents self.now.depth (F.pre self.now.deeper) (F.post self.now.deeper) }
        ensures { IfOk result (λ r. r ≡ behind (row_of self.now.tokens.now) word.xor_word (read.conjunction self.now.tokens.now (event_at self.now.tokens.now self.now.depth)) at) }
    {
        let Some((_, at)) = keyword_at(self.tokens, word::XOR, at) else {
            return Ok(None);
        };
        self.conjunction(at)
    }

    #[tactic(auto, using(grammar_forms::proofs::Turns::turns))]
    fn more_xor(&self, from: usize) -> Result<(EventExprs, usize), AllocError>
        requires { NestsEvents self.now.depth (F.pre self.now.deeper) (F.post self.now.deeper) }
        ensures { IfOk result (λ r. r ≡ many (behind (row_of self.now.tokens.now) word.xor_word (read.conjunction self.now.tokens.now (event_at self.now.tokens.now self.now.depth))) (length self.now.tokens.now - from) from []) }
    {
        let mut found = List::new(self.alloc);
        let mut at = from;
        'items: for _turn in from..self.tokens.len() {
            let Some((item, next)) = self.next_xor(at)? else {
                return Ok((found, at));
            };
            found.push(item)?;
            at = next;
        }
        Ok((found, at))
    }

    #[tactic(auto, unfolding(crate::specs::Reading::exclusive, primary_parser::specs::Reader::joined))]
    pub(crate) fn exclusive(&self, at: usize) -> Result<Option<(EventExpr, usize)>, AllocError>
        requires { NestsEvents self.now.depth (F.pre self.now.deeper) (F.post self.now.deeper) }
        ensures { IfOk result (λ r. r ≡ read.exclusive self.now.tokens.now (event_at self.now.tokens.now self.now.depth) at) }
    {
        let spot = spot_at(self.tokens, at);
        let Some((first, at)) = self.conjunction(at)? else {
            return Ok(None);
        };
        let (rest, end) = self.more_xor(at)?;
        Ok(Some((xor_of(self.alloc, spot, first, rest)?, end)))
    }

    #[tactic(auto, unfolding(grammar_forms::specs::Reader::behind))]
    fn next_or(&self, at: usize) -> Result<Option<(EventExpr, usize)>, AllocError>
        requires { NestsEvents self.now.depth (F.pre self.now.deeper) (F.post self.now.deeper) }
        ensures { IfOk result (λ r. r ≡ behind (row_of self.now.tokens.now) word.or_word (read.exclusive self.now.tokens.now (event_at self.now.tokens.now self.now.depth)) at) }
    {
        let Some((_, at)) = keyword_at(self.tokens, word::OR, at) else {
            return Ok(None);
        };
        self.exclusive(at)
    }

    #[tactic(auto, using(grammar_forms::proofs::Turns::turns))]
    fn more_or(&self, from: usize) -> Result<(EventExprs, usize), AllocError>
        requires { NestsEvents self.now.depth (F.pre self.now.deeper) (F.post self.now.deeper) }
        ensures { IfOk result (λ r. r ≡ many (behind (row_of self.now.tokens.now) word.or_word (read.exclusive self.now.tokens.now (event_at self.now.tokens.now self.now.depth))) (length self.now.tokens.now - from) from []) }
    {
        let mut found = List::new(self.alloc);
        let mut at = from;
        'items: for _turn in from..self.tokens.len() {
            let Some((item, next)) = self.next_or(at)? else {
                return Ok((found, at));
            };
            found.push(item)?;
            at = next;
        }
        Ok((found, at))
    }

    #[tactic(auto, unfolding(crate::specs::Reading::disjunction, primary_parser::specs::Reader::joined))]
    pub(crate) fn disjunction(&self, at: usize) -> Result<Option<(EventExpr, usize)>, AllocError>
        requires { NestsEvents self.now.depth (F.pre self.now.deeper) (F.post self.now.deeper) }
        ensures { IfOk result (λ r. r ≡ read.disjunction self.now.tokens.now (event_at self.now.tokens.now self.now.depth) at) }
    {
        let spot = spot_at(self.tokens, at);
        let Some((first, at)) = self.exclusive(at)? else {
            return Ok(None);
        };
        let (rest, end) = self.more_or(at)?;
        Ok(Some((or_of(self.alloc, spot, first, rest)?, end)))
    }

    #[tactic(auto, unfolding(grammar_forms::specs::Reader::behind))]
    fn next_followed(&self, at: usize) -> Result<Option<(EventExpr, usize)>, AllocError>
        requires { NestsEvents self.now.depth (F.pre self.now.deeper) (F.post self.now.deeper) }
        ensures { IfOk result (λ r. r ≡ behind (row_of self.now.tokens.now) event_word.arrow (read.disjunction self.now.tokens.now (event_at self.now.tokens.now self.now.depth)) at) }
    {
        let Some((_, at)) = sign_at(self.tokens, word::ARROW, at) else {
            return Ok(None);
        };
        self.disjunction(at)
    }

    #[tactic(auto, using(grammar_forms::proofs::Turns::turns))]
    fn more_followed(&self, from: usize) -> Result<(EventExprs, usize), AllocError>
        requires { NestsEvents self.now.depth (F.pre self.now.deeper) (F.post self.now.deeper) }
        ensures { IfOk result (λ r. r ≡ many (behind (row_of self.now.tokens.now) event_word.arrow (read.disjunction self.now.tokens.now (event_at self.now.tokens.now self.now.depth))) (length self.now.tokens.now - from) from []) }
    {
        let mut found = List::new(self.alloc);
        let mut at = from;
        'items: for _turn in from..self.tokens.len() {
            let Some((item, next)) = self.next_followed(at)? else {
                return Ok((found, at));
            };
            found.push(item)?;
            at = next;
        }
        Ok((found, at))
    }

    #[tactic(auto, unfolding(crate::specs::Reading::whole, primary_parser::specs::Reader::joined))]
    pub(crate) fn whole(&self, at: usize) -> Result<Option<(EventExpr, usize)>, AllocError>
        requires { NestsEvents self.now.depth (F.pre self.now.deeper) (F.post self.now.deeper) }
        ensures { IfOk result (λ r. r ≡ read.whole self.now.tokens.now (event_at self.now.tokens.now self.now.depth) at) }
    {
        let spot = spot_at(self.tokens, at);
        let Some((first, at)) = self.disjunction(at)? else {
            return Ok(None);
        };
        let (rest, end) = self.more_followed(at)?;
        Ok(Some((followed_of(self.alloc, spot, first, rest)?, end)))
    }
}
