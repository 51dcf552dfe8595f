//! The rules of event expressions over a reader of what is nested one deeper, so that each is proved by itself.

ghost use Rattle.std.specs.Prelude.{◌≡◌, IfOk};
ghost use Rattle.grammar_forms.specs.Reader.{behind, within};
ghost use Rattle.event_parser.specs.Reading as read;
ghost use Rattle.event_parser.specs.Reading.{event_at};
ghost use Rattle.event_parser.specs.Nests.{NestsEvents};

use crate::part::EventPart;
use epl_lexer::Token;
use epl_tree::{Boxed, EventExpr, EventNode};
use primary_parser::token::{keyword_at, sign_at, spot_at};
use std::alloc::{AllocError, Global};
use template_parser::{span_at, template_at, word};

/// How deep event expressions nest.
pub const MAX_DEPTH: usize = 200;

/// The longest tree of a part at a place that nests at most so deep, and the place behind it.
#[tactic(auto, unfolding(crate::specs::Reading::event_at))]
pub fn event_at(
    alloc: Global,
    tokens: &[Token],
    depth: usize,
    part: EventPart,
    at: usize,
) -> Result<Option<(EventExpr, usize)>, AllocError>
    ensures { IfOk result (λ r. r ≡ read.event_at tokens.now depth part at) }
{
    if depth == 0 {
        return Ok(None);
    }
    let rules = EventRules {
        alloc,
        tokens,
        depth: depth - 1,
        deeper: event_at,
    };
    rules.part(part, at)
}

#[tactic(auto, unfolding(crate::specs::Reading::waiting, grammar_forms::specs::Reader::behind))]
fn waiting_at(
    alloc: Global,
    tokens: &[Token],
    at: usize,
) -> Result<Option<(EventNode, usize)>, AllocError>
    ensures { IfOk result (λ r. r ≡ read.waiting tokens.now at) }
{
    let Some((_, at)) = keyword_at(tokens, word::WAIT, at) else {
        return Ok(None);
    };
    let Some((duration, end)) = span_at(alloc, tokens, at)? else {
        return Ok(None);
    };
    Ok(Some((EventNode::Wait(duration), end)))
}

/// The rules over tokens and a reader of what is nested one deeper, which is to read at a depth.
#[derive(Clone, Copy)]
pub struct EventRules<'t, F> {
    pub(crate) alloc: Global,
    pub(crate) tokens: &'t [Token],
    pub(crate) depth: usize,
    pub(crate) deeper: F,
}

impl<
    't,
    F: Fn(
        Global,
        &[Token],
        usize,
        EventPart,
        usize,
    ) -> Result<Option<(EventExpr, usize)>, AllocError>,
> EventRules<'t, F> {
    fn deeper_at(
        &self,
        part: EventPart,
        at: usize,
    ) -> Result<Option<(EventExpr, usize)>, AllocError>
        requires { NestsEvents self.now.depth (F.pre self.now.deeper) (F.post self.now.deeper) }
        ensures { IfOk result (λ r. r ≡ event_at self.now.tokens.now self.now.depth part at) }
    {
        (self.deeper)(self.alloc, self.tokens, self.depth, part, at)
    }

    #[tactic(auto, unfolding(crate::specs::Reading::group, grammar_forms::specs::Reader::within))]
    fn group(&self, at: usize) -> Result<Option<(EventNode, usize)>, AllocError>
        requires { NestsEvents self.now.depth (F.pre self.now.deeper) (F.post self.now.deeper) }
        ensures { IfOk result (λ r. r ≡ read.group self.now.tokens.now (event_at self.now.tokens.now self.now.depth) at) }
    {
        let Some((_, at)) = sign_at(self.tokens, word::PARENTHESIS, at) else {
            return Ok(None);
        };
        let Some((inner, at)) = self.deeper_at(EventPart::Whole, at)? else {
            return Ok(None);
        };
        let Some((_, end)) = sign_at(self.tokens, word::CLOSING_PARENTHESIS, at) else {
            return Ok(None);
        };
        let node = EventNode::Group(Boxed::new(self.alloc, inner)?, None);
        Ok(Some((node, end)))
    }

    #[tactic(auto, unfolding(crate::specs::Reading::atom))]
    fn atom(&self, at: usize) -> Result<Option<(EventNode, usize)>, AllocError>
        requires { NestsEvents self.now.depth (F.pre self.now.deeper) (F.post self.now.deeper) }
        ensures { IfOk result (λ r. r ≡ read.atom self.now.tokens.now (event_at self.now.tokens.now self.now.depth) at) }
    {
        if let Some((node, end)) = self.group(at)? {
            return Ok(Some((node, end)));
        }
        if let Some((node, end)) = waiting_at(self.alloc, self.tokens, at)? {
            return Ok(Some((node, end)));
        }
        let Some((template, end)) = template_at(self.alloc, self.tokens, at)? else {
            return Ok(None);
        };
        Ok(Some((EventNode::Template(template), end)))
    }

    #[tactic(auto, unfolding(crate::specs::Reading::repeated, grammar_forms::specs::Reader::behind))]
    fn repeated(&self, at: usize) -> Result<Option<(EventNode, usize)>, AllocError>
        requires { NestsEvents self.now.depth (F.pre self.now.deeper) (F.post self.now.deeper) }
        ensures { IfOk result (λ r. r ≡ read.repeated self.now.tokens.now (event_at self.now.tokens.now self.now.depth) at) }
    {
        let Some((_, at)) = keyword_at(self.tokens, word::ALL, at) else {
            return Ok(None);
        };
        let Some((operand, end)) = self.deeper_at(EventPart::Prefixed, at)? else {
            return Ok(None);
        };
        let node = EventNode::All(Boxed::new(self.alloc, operand)?);
        Ok(Some((node, end)))
    }

    #[tactic(auto, unfolding(crate::specs::Reading::negated, grammar_forms::specs::Reader::behind))]
    fn negated(&self, at: usize) -> Result<Option<(EventNode, usize)>, AllocError>
        requires { NestsEvents self.now.depth (F.pre self.now.deeper) (F.post self.now.deeper) }
        ensures { IfOk result (λ r. r ≡ read.negated self.now.tokens.now (event_at self.now.tokens.now self.now.depth) at) }
    {
        let Some((_, at)) = keyword_at(self.tokens, word::NOT, at) else {
            return Ok(None);
        };
        let Some((operand, end)) = self.deeper_at(EventPart::Prefixed, at)? else {
            return Ok(None);
        };
        let node = EventNode::Not(Boxed::new(self.alloc, operand)?);
        Ok(Some((node, end)))
    }

    #[tactic(auto, unfolding(crate::specs::Reading::unary_node))]
    fn unary_node(&self, at: usize) -> Result<Option<(EventNode, usize)>, AllocError>
        requires { NestsEvents self.now.depth (F.pre self.now.deeper) (F.post self.now.deeper) }
        ensures { IfOk result (λ r. r ≡ read.unary_node self.now.tokens.now (event_at self.now.tokens.now self.now.depth) at) }
    {
        if let Some((node, end)) = self.repeated(at)? {
            return Ok(Some((node, end)));
        }
        if let Some((node, end)) = self.negated(at)? {
            return Ok(Some((node, end)));
        }
        self.atom(at)
    }

    #[tactic(auto, unfolding(crate::specs::Reading::unary))]
    pub(crate) fn unary(&self, at: usize) -> Result<Option<(EventExpr, usize)>, AllocError>
        requires { NestsEvents self.now.depth (F.pre self.now.deeper) (F.post self.now.deeper) }
        ensures { IfOk result (λ r. r ≡ read.unary self.now.tokens.now (event_at self.now.tokens.now self.now.depth) at) }
    {
        let spot = spot_at(self.tokens, at);
        let Some((node, end)) = self.unary_node(at)? else {
            return Ok(None);
        };
        Ok(Some((EventExpr { spot, node }, end)))
    }

    fn part(&self, part: EventPart, at: usize) -> Result<Option<(EventExpr, usize)>, AllocError>
        requires { NestsEvents self.now.depth (F.pre self.now.deeper) (F.post self.now.deeper) }
        ensures { IfOk result (λ r. r ≡ read.part_of self.now.tokens.now (event_at self.now.tokens.now self.now.depth) part at) }
    {
        match part {
            EventPart::Whole => self.whole(at),
            EventPart::Prefixed => self.unary(at),
        }
    }
}
