ghost use Rattle.std.specs.Prelude.{◌≡◌, ◌++◌, IfOk};

use epl_values::{List, Text, copy};
use std::alloc::{AllocError, Global};
use term_meaning::{Binding, Completion, Leaf, Span, TextEnd, TextRange};

/// Puts copies of bindings behind others.
pub fn extend(alloc: Global, front: Completion, more: &[Binding]) -> Result<Completion, AllocError>
    ensures { IfOk result (λ all. all ≡ front ++ more.now) }
{
    let mut all = front;
    'bindings: for binding in more {
        let event = copy(alloc, &binding.event)?;
        all.push(Binding {
            local: binding.local,
            event,
        })?;
    }
    Ok(all)
}

fn copy_end(alloc: Global, end: &Option<TextEnd>) -> Result<Option<TextEnd>, AllocError>
    ensures { IfOk result (λ e. e ≡ end.now) }
{
    match end {
        None => Ok(None),
        Some(end) => Ok(Some(TextEnd {
            text: Text::of(alloc, end.text.as_str())?,
            closed: end.closed,
        })),
    }
}

fn copy_span(alloc: Global, span: &Span) -> Result<Span, AllocError>
    ensures { IfOk result (λ s. s ≡ span.now) }
{
    match span {
        Span::All => Ok(Span::All),
        Span::Numbers(low, high) => Ok(Span::Numbers(*low, *high)),
        Span::Is(truth) => Ok(Span::Is(*truth)),
        Span::Texts(range) => {
            let low = copy_end(alloc, &range.low)?;
            let high = copy_end(alloc, &range.high)?;
            Ok(Span::Texts(TextRange { low, high }))
        }
        Span::None => Ok(Span::None),
    }
}

/// A leaf of its own that is equal to this one.
pub fn copy_leaf(alloc: Global, leaf: &Leaf) -> Result<Leaf, AllocError>
    ensures { IfOk result (λ l. l ≡ leaf.now) }
{
    let mut copies = List::new(alloc);
    'spans: for span in leaf.spans.as_slice() {
        copies.push(copy_span(alloc, span)?)?;
    }
    Ok(Leaf {
        number: leaf.number,
        spans: copies,
        event: leaf.event,
        mode: leaf.mode,
        until: leaf.until,
    })
}
