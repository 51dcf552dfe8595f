ghost use Rattle.std.specs.Prelude.{◌≡◌, [], IfOk};
ghost use Rattle.std.specs.List.{AllByRecursion};
ghost use Rattle.event_types.specs.Types.{form_of, types_in};
ghost use Rattle.evt_text.specs.Forms.{IsName, AreEventTypes};

use crate::reader::{DEPTH, Reader};
use anyhow::Result;
use epl_values::{EventShape, EventShapes, Field, List, Shape, Text};
use std::alloc::{AllocError, Global};

/// The event types that rows of values speak of: a name, and each field's name and type.
const DECLARED: [&str; 3] = [
    "Point x integer label string",
    "Route start Point points sequence<Point> open boolean",
    "Mixed route Route points dictionary<integer,Point> where context waiting listener",
];

/// How many fields an event type has at most.
const MOST: usize = 8;

/// The event type that a text declares over these ones.
fn declared(alloc: Global, types: &EventShapes, text: &str) -> Result<EventShape> {
    let mut line = Reader::new(text);
    let name = Text::of(alloc, line.word())?;
    let mut fields = List::new(alloc);
    for _ in 0..MOST {
        if line.is_done() {
            break;
        }
        let name = Text::of(alloc, line.word())?;
        let shape = line.shape(alloc, types, DEPTH)?;
        fields.push(Field { name, shape })?;
    }
    Ok(EventShape { name, fields })
}

/// The event types that rows of values speak of: `Point`, `Route` and `Mixed`.
pub fn shapes(alloc: Global) -> Result<EventShapes> {
    let mut types = List::new(alloc);
    for text in DECLARED {
        let event = declared(alloc, &types, text)?;
        types.push(event)?;
    }
    Ok(types)
}

/// `event Tick { string name; integer count; }`
fn tick(alloc: Global) -> Result<EventShape, AllocError>
    ensures name { IfOk result (λ event. IsName event.name) }
    ensures fields { IfOk result (λ event. AllByRecursion (λ f. types_in (form_of f.shape) ≡ []) event.fields) }
{
    let mut fields = List::new(alloc);
    fields.push(Field {
        name: Text::of(alloc, "name")?,
        shape: Shape::Text,
    })?;
    fields.push(Field {
        name: Text::of(alloc, "count")?,
        shape: Shape::Integer,
    })?;
    Ok(EventShape {
        name: Text::of(alloc, "Tick")?,
        fields,
    })
}

/// The event types that rows of event files speak of: `Tick`.
pub fn ticks(alloc: Global) -> Result<EventShapes, AllocError>
    ensures { IfOk result AreEventTypes }
{
    let mut types = List::new(alloc);
    types.push(tick(alloc)?)?;
    Ok(types)
}
