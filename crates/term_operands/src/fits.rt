ghost use Rattle.std.specs.Prelude.{◌≡◌, ◌&&◌, int_le};
ghost use Rattle.std.specs.Option.{option_copied};
ghost use Rattle.term_meaning.specs.Spans.{above, agrees, below, lets, span_fits, spans_fit, within};
ghost use Rattle.term_meaning.specs.Step.{event_fits, heard, hears, is_due, is_late, is_ordinary, leaf_fits};
ghost use Rattle.epl_values.specs.declared.value.Value.{out-Value};

use epl_tree::Mode;
use epl_values::{Text, Value};
use std::cmp::Ordering;
use term_meaning::{Leaf, Span, Stimulus, TextEnd};

fn lets(closed: bool, order: Ordering) -> bool
    ensures { result ≡ lets closed order }
{
    match order {
        Ordering::Less => true,
        Ordering::Equal => closed,
        Ordering::Greater => false,
    }
}

fn is_above(end: &Option<TextEnd>, text: &Text) -> bool
    ensures { result ≡ above end.now text.now }
{
    match end {
        None => true,
        Some(end) => lets(end.closed, end.text.as_str().cmp(&text.as_str())),
    }
}

fn is_below(end: &Option<TextEnd>, text: &Text) -> bool
    ensures { result ≡ below end.now text.now }
{
    match end {
        None => true,
        Some(end) => lets(end.closed, text.as_str().cmp(&end.text.as_str())),
    }
}

fn agrees(left: bool, right: bool) -> bool
    ensures { result ≡ agrees left right }
{
    if left { right } else { !right }
}

fn is_within(low: i128, high: i128, number: i64) -> bool
    ensures { result ≡ within low high number }
{
    low <= number as i128 && number as i128 <= high
}

#[tactic(auto, unfolding(term_meaning::specs::Spans::span_fits))]
fn span_fits(span: &Span, value: &Value) -> bool
    ensures { result ≡ span_fits span.now value.now }
{
    match (span, value) {
        (Span::All, _) => true,
        (Span::Numbers(low, high), Value::Integer(number)) => is_within(*low, *high, *number),
        (Span::Is(left), Value::Boolean(right)) => agrees(*left, *right),
        (Span::Texts(range), Value::Text(text)) => {
            is_above(&range.low, text) && is_below(&range.high, text)
        }
        _ => false,
    }
}

/// Whether each value fits the span at its place.
fn spans_fit(spans: &[Span], values: &[Value]) -> bool
    ensures { result ≡ spans_fit spans.now values.now }
{
    spans
        .iter()
        .zip(values)
        .all(|(span, value)| span_fits(span, value))
}

fn event_fits(leaf: &Leaf, event: &Value) -> bool
    ensures { result ≡ event_fits leaf.now (out-Value event.now) }
{
    match event {
        Value::Event(number, fields) => {
            leaf.event == *number && spans_fit(leaf.spans.as_slice(), fields.as_slice())
        }
        _ => false,
    }
}

/// The event that a template of a mode hears.
pub fn heard(mode: Mode, stimulus: &Stimulus) -> Option<&Value>
    ensures { option_copied result ≡ heard mode stimulus.now }
{
    match (mode, stimulus) {
        (Mode::Ordinary, Stimulus::Event(event)) => Some(event),
        (Mode::Unmatched, Stimulus::Unmatched(event)) => Some(event),
        (Mode::Completed, Stimulus::Completed(event)) => Some(event),
        _ => None,
    }
}

/// Whether the leaf of a template hears an event, and it fits.
#[tactic(auto, unfolding(term_meaning::specs::Step::hears))]
pub fn hears(stimulus: &Stimulus, leaf: &Leaf) -> bool
    ensures { result ≡ hears stimulus.now leaf.now }
{
    match heard(leaf.mode, stimulus) {
        None => false,
        Some(event) => event_fits(leaf, event),
    }
}

/// Whether a stimulus is a time at or past this one.
#[tactic(auto, unfolding(term_meaning::specs::Step::is_due))]
pub fn is_due(stimulus: &Stimulus, at: i128) -> bool
    ensures { result ≡ is_due stimulus.now at }
{
    match stimulus {
        Stimulus::Time(now) => at <= *now,
        Stimulus::Event(_) => false,
        Stimulus::Unmatched(_) => false,
        Stimulus::Completed(_) => false,
    }
}

/// Whether a stimulus is a time at or past a deadline.
pub fn is_late(stimulus: &Stimulus, until: Option<i128>) -> bool
    ensures { result ≡ is_late stimulus.now until }
{
    match until {
        None => false,
        Some(until) => is_due(stimulus, until),
    }
}

/// Whether a template of this mode hears events as they come.
pub fn is_ordinary(mode: Mode) -> bool
    ensures { result ≡ is_ordinary mode }
{
    match mode {
        Mode::Ordinary => true,
        Mode::Unmatched => false,
        Mode::Completed => false,
    }
}
