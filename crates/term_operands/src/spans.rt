ghost use Rattle.std.specs.Prelude.{◌≡◌, map, slice_get, slice_set, IfOk};
ghost use Rattle.std.specs.Option.{option_copied};
ghost use Rattle.event_types.specs.Types.{fields_of};
ghost use Rattle.typed_program.specs.TermRules.{asks};
ghost use Rattle.term_meaning.specs.declared.leaf.Computed.TheVariants.{Number as TheNumber};
ghost use Rattle.term_meaning.specs.declared.leaf.Span.TheVariants as span;
ghost use Rattle.term_meaning.specs.Spans.{compared, exactly, from_low, from_to, high_number, low_number, narrowed, span_of, template_spans, to_high};
ghost use Rattle.term_meaning.specs.UnderWay.{setting_of};
ghost use Rattle.term_operands.specs.Small.{IsSmall};

use crate::operands::Origin;
use epl_tree::Comparison;
use epl_values::{EventShape, Field, List, Text};
use std::alloc::{AllocError, Global};
use term_meaning::{Binding, Computed, Span, Spans, TextEnd, TextRange};
use typed_program::{Constraint, ConstraintNode, TemplateShape};

fn exactly(alloc: Global, computed: Computed) -> Result<Span, AllocError>
    ensures { IfOk result (λ s. s ≡ exactly computed) }
{
    match computed {
        Computed::Number(number) => Ok(Span::Numbers(number, number)),
        Computed::Truth(truth) => Ok(Span::Is(truth)),
        Computed::Letters(text) => {
            let low = Some(TextEnd {
                text: Text::of(alloc, text.as_str())?,
                closed: true,
            });
            let high = Some(TextEnd { text, closed: true });
            Ok(Span::Texts(TextRange { low, high }))
        }
        Computed::Missing => Ok(Span::None),
    }
}

fn low_number(closed: bool, number: i128) -> i128
    requires { IsSmall (TheNumber number) }
    ensures { result ≡ low_number closed number }
{
    if closed { number } else { number + 1 }
}

fn high_number(closed: bool, number: i128) -> i128
    requires { IsSmall (TheNumber number) }
    ensures { result ≡ high_number closed number }
{
    if closed { number } else { number - 1 }
}

fn from_low(closed: bool, computed: Computed) -> Span
    requires { IsSmall computed }
    ensures { result ≡ from_low closed computed }
{
    match computed {
        Computed::Number(number) => { Span::Numbers(low_number(closed, number), i64::MAX as i128) }
        Computed::Letters(text) => Span::Texts(TextRange {
            low: Some(TextEnd { text, closed }),
            high: None,
        }),
        Computed::Truth(_) => Span::None,
        Computed::Missing => Span::None,
    }
}

fn to_high(closed: bool, computed: Computed) -> Span
    requires { IsSmall computed }
    ensures { result ≡ to_high closed computed }
{
    match computed {
        Computed::Number(number) => { Span::Numbers(i64::MIN as i128, high_number(closed, number)) }
        Computed::Letters(text) => Span::Texts(TextRange {
            low: None,
            high: Some(TextEnd { text, closed }),
        }),
        Computed::Truth(_) => Span::None,
        Computed::Missing => Span::None,
    }
}

fn from_to(low_closed: bool, low: Computed, high_closed: bool, high: Computed) -> Span
    requires low { IsSmall low }
    requires high { IsSmall high }
    ensures { result ≡ from_to low_closed low high_closed high }
{
    match (low, high) {
        (Computed::Number(first), Computed::Number(last)) => {
            Span::Numbers(
                low_number(low_closed, first),
                high_number(high_closed, last),
            )
        }
        (Computed::Letters(first), Computed::Letters(last)) => Span::Texts(TextRange {
            low: Some(TextEnd {
                text: first,
                closed: low_closed,
            }),
            high: Some(TextEnd {
                text: last,
                closed: high_closed,
            }),
        }),
        (Computed::Number(_), Computed::Letters(_)) => Span::None,
        (Computed::Number(_), Computed::Truth(_) | Computed::Missing) => Span::None,
        (Computed::Letters(_), Computed::Number(_)) => Span::None,
        (Computed::Letters(_), Computed::Truth(_) | Computed::Missing) => Span::None,
        (Computed::Truth(_) | Computed::Missing, _) => Span::None,
    }
}

fn compared(alloc: Global, comparison: Comparison, computed: Computed) -> Result<Span, AllocError>
    requires { IsSmall computed }
    ensures { IfOk result (λ s. s ≡ compared comparison computed) }
{
    match comparison {
        Comparison::Equal => exactly(alloc, computed),
        Comparison::NotEqual => Ok(Span::None),
        Comparison::Less => Ok(to_high(false, computed)),
        Comparison::LessEqual => Ok(to_high(true, computed)),
        Comparison::Greater => Ok(from_low(false, computed)),
        Comparison::GreaterEqual => Ok(from_low(true, computed)),
    }
}

fn asks(node: &ConstraintNode) -> bool
    ensures { result ≡ asks node.now }
{
    match node {
        ConstraintNode::Any => false,
        ConstraintNode::Compares(_, _) => true,
        ConstraintNode::Lies(_) => true,
    }
}

/// Puts the span of a field at its place, where there is such a field.
fn with_span(spans: Spans, field: u16, span: Span) -> Spans
    ensures { result ≡ slice_set spans field span }
{
    let mut spans = spans;
    let at = field as usize;
    if at < spans.len() {
        spans.set(at, span);
    }
    spans
}

fn type_at(types: &[EventShape], number: u16) -> Option<&EventShape>
    ensures { option_copied result ≡ slice_get types.now number }
{
    types.get(number as usize)
}

/// As many spans as fields, each of which lets all through.
fn all_free(alloc: Global, fields: &[Field]) -> Result<Spans, AllocError>
    ensures { IfOk result (λ all. all ≡ map (λ field. span.All) fields.now) }
{
    let mut spans = List::new(alloc);
    'fields: for _field in fields {
        spans.push(Span::All)?;
    }
    Ok(spans)
}

impl Origin<'_> {
    fn span(&self, seen: &[Binding], node: &ConstraintNode) -> Result<Span, AllocError>
        ensures { IfOk result (λ s. s ≡ span_of (setting_of self.entry.now.types.now self.entry.now.site.now self.entry.now.operands.now self.entry.now.time) seen.now node.now) }
    {
        match node {
            ConstraintNode::Any => Ok(Span::All),
            ConstraintNode::Compares(comparison, operand) => {
                let bound = self.operand(seen, operand)?;
                compared(self.alloc, *comparison, bound)
            }
            ConstraintNode::Lies(range) => {
                let low = self.operand(seen, &range.low.bound)?;
                let high = self.operand(seen, &range.high.bound)?;
                Ok(from_to(range.low.closed, low, range.high.closed, high))
            }
        }
    }

    fn narrowed(
        &self,
        spans: Spans,
        seen: &[Binding],
        constraint: &Constraint,
    ) -> Result<Spans, AllocError>
        ensures { IfOk result (λ all. all ≡ narrowed (setting_of self.entry.now.types.now self.entry.now.site.now self.entry.now.operands.now self.entry.now.time) seen.now spans constraint.now) }
    {
        if asks(&constraint.node) {
            let span = self.span(seen, &constraint.node)?;
            return Ok(with_span(spans, constraint.field, span));
        }
        Ok(spans)
    }

    /// The free spans of an event type's fields.
    fn free(&self, event: u16) -> Result<Spans, AllocError>
        ensures { IfOk result (λ all. all ≡ map (λ field. span.All) (fields_of (slice_get self.entry.now.types.now event))) }
    {
        match type_at(self.types.as_slice(), event) {
            Some(shape) => all_free(self.alloc, shape.fields.as_slice()),
            None => Ok(List::new(self.alloc)),
        }
    }

    /// The spans of a template that becomes active, one for each field of its event type.
    pub fn spans(&self, seen: &[Binding], template: &TemplateShape) -> Result<Spans, AllocError>
        ensures { IfOk result (λ all. all ≡ template_spans (setting_of self.entry.now.types.now self.entry.now.site.now self.entry.now.operands.now self.entry.now.time) seen.now template.now) }
    {
        let mut spans = self.free(template.event)?;
        'constraints: for constraint in template.constraints.as_slice() {
            spans = self.narrowed(spans, seen, constraint)?;
        }
        Ok(spans)
    }
}
