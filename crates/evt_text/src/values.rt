ghost use Rattle.std.specs.Prelude.{[], true};
ghost use Rattle.event_types.specs.Types.{form_of};
ghost use Rattle.evt_text.specs.Reading.{Reads, Passes, behind_lead, item_at, list_at, entry_at, put_in, fields_from, event_at, form_at, value_from};

use crate::TextFault;
use crate::entries::put_entry;
use crate::scanner::Scanner;
use epl_values::{
    EventShape, EventShapes, Field, Items, List, Ordered, Pair, Pairs, Shape, Value, Values,
};
use std::alloc::Global;

/// Passes what stands before an item.
#[tactic(auto, unfolding(crate::specs::Reading::behind_lead))]
fn lead(scanner: &mut Scanner, first: bool) -> Result<(), TextFault>
    ensures { Passes result scanner.new.rest.now (behind_lead first scanner.old.rest.now) }
{
    if first {
        return Ok(());
    }
    scanner.sign(',')?;
    scanner.blanks();
    Ok(())
}

#[cycle(values)]
#[tactic(auto, unfolding(crate::specs::Reading::item_at))]
fn item(
    alloc: Global,
    scanner: &mut Scanner,
    first: bool,
    shape: &Shape,
    types: &EventShapes,
    limit: usize,
) -> Result<Value, TextFault>
    ensures { Reads result scanner.new.rest.now (item_at (value_from limit types.now (form_of shape.now)) first scanner.old.rest.now) }
{
    lead(scanner, first)?;
    let value = value(alloc, scanner, shape, types, limit)?;
    scanner.blanks();
    Ok(value)
}

#[cycle(values)]
fn items(
    alloc: Global,
    scanner: &mut Scanner,
    element: &Shape,
    types: &EventShapes,
    limit: usize,
) -> Result<Items, TextFault>
    ensures { Reads result scanner.new.rest.now (list_at (value_from limit types.now (form_of element.now)) 91 93 limit scanner.old.rest.now) }
{
    scanner.opens('[')?;
    let mut values = Items::new(alloc);
    let mut first = true;
    'items: for _turn in 0..limit {
        if scanner.closes(']') {
            return Ok(values);
        }
        let value = item(alloc, scanner, first, element, types, limit)?;
        values.push(value)?;
        first = false;
    }
    Err(TextFault::NoValue)
}

#[cycle(values)]
#[tactic(auto, unfolding(crate::specs::Reading::entry_at))]
fn entry(
    alloc: Global,
    scanner: &mut Scanner,
    key: &Shape,
    item: &Shape,
    types: &EventShapes,
    limit: usize,
) -> Result<Pair, TextFault>
    ensures { Reads result scanner.new.rest.now (entry_at (value_from limit types.now (form_of key.now)) (value_from limit types.now (form_of item.now)) scanner.old.rest.now) }
{
    let key = value(alloc, scanner, key, types, limit)?;
    scanner.blanks();
    scanner.sign(':')?;
    scanner.blanks();
    let value = value(alloc, scanner, item, types, limit)?;
    Ok(Pair { key, value })
}

#[cycle(values)]
#[tactic(auto, unfolding(crate::specs::Reading::item_at))]
fn next_entry(
    alloc: Global,
    scanner: &mut Scanner,
    first: bool,
    key: &Shape,
    item: &Shape,
    types: &EventShapes,
    limit: usize,
) -> Result<Pair, TextFault>
    ensures { Reads result scanner.new.rest.now (item_at (entry_at (value_from limit types.now (form_of key.now)) (value_from limit types.now (form_of item.now))) first scanner.old.rest.now) }
{
    lead(scanner, first)?;
    let entry = entry(alloc, scanner, key, item, types, limit)?;
    scanner.blanks();
    Ok(entry)
}

#[cycle(values)]
fn entries(
    alloc: Global,
    scanner: &mut Scanner,
    key: &Shape,
    item: &Shape,
    types: &EventShapes,
    limit: usize,
) -> Result<Pairs, TextFault>
    ensures { Reads result scanner.new.rest.now (put_in [] (list_at (entry_at (value_from limit types.now (form_of key.now)) (value_from limit types.now (form_of item.now))) 123 125 limit scanner.old.rest.now)) }
{
    scanner.opens('{')?;
    let mut pairs = Ordered::new(alloc);
    let mut first = true;
    'entries: for _turn in 0..limit {
        if scanner.closes('}') {
            return Ok(pairs);
        }
        let Pair { key, value } = next_entry(alloc, scanner, first, key, item, types, limit)?;
        put_entry(&mut pairs, key, value)?;
        first = false;
    }
    Err(TextFault::NoValue)
}

#[cycle(values)]
fn fields(
    alloc: Global,
    scanner: &mut Scanner,
    fields: &[Field],
    types: &EventShapes,
    limit: usize,
) -> Result<Values, TextFault>
    ensures { Reads result scanner.new.rest.now (fields_from (value_from limit types.now) true fields.now scanner.old.rest.now) }
{
    let mut values = List::new(alloc);
    let mut first = true;
    'fields: for next in fields {
        let value = item(alloc, scanner, first, &next.shape, types, limit)?;
        values.push(value)?;
        first = false;
    }
    Ok(values)
}

#[cycle(values)]
#[tactic(auto, unfolding(crate::specs::Reading::event_at))]
fn event(
    alloc: Global,
    scanner: &mut Scanner,
    event: &EventShape,
    types: &EventShapes,
    limit: usize,
) -> Result<Values, TextFault>
    ensures { Reads result scanner.new.rest.now (event_at (value_from limit types.now) event.now scanner.old.rest.now) }
{
    scanner.name(event.name.as_str())?;
    scanner.blanks();
    scanner.opens('(')?;
    let values = fields(alloc, scanner, event.fields.as_slice(), types, limit)?;
    scanner.sign(')')?;
    Ok(values)
}

#[cycle(values)]
fn formed(
    alloc: Global,
    scanner: &mut Scanner,
    shape: &Shape,
    types: &EventShapes,
    limit: usize,
) -> Result<Value, TextFault>
    ensures { Reads result scanner.new.rest.now (form_at (value_from limit types.now) limit types.now (form_of shape.now) scanner.old.rest.now) }
{
    match shape {
        Shape::Integer => Ok(Value::Integer(scanner.integer()?)),
        Shape::Boolean => Ok(Value::Boolean(scanner.truth()?)),
        Shape::Text => Ok(Value::Text(scanner.string(alloc)?)),
        Shape::Sequence(element) => {
            Ok(Value::Sequence(items(alloc, scanner, element.get(), types, limit)?))
        }
        Shape::Dictionary(key, item) => {
            let pairs = entries(alloc, scanner, key.get(), item.get(), types, limit)?;
            Ok(Value::Dictionary(pairs))
        }
        Shape::Event(number) => {
            let at = usize::from(*number);
            if at >= types.len() {
                return Err(TextFault::NoValue);
            }
            let values = event(alloc, scanner, types.get(at), types, limit)?;
            Ok(Value::Event(*number, values))
        }
        Shape::Context | Shape::Listener => Err(TextFault::NoValue),
    }
}

/// Reads a value of this shape, nested at most `limit` deep, with fewer items than that in each list.
#[cycle(values)]
pub fn value(
    alloc: Global,
    scanner: &mut Scanner,
    shape: &Shape,
    types: &EventShapes,
    limit: usize,
) -> Result<Value, TextFault>
    ensures { Reads result scanner.new.rest.now (value_from limit types.now (form_of shape.now) scanner.old.rest.now) }
{
    if limit == 0 {
        return Err(TextFault::NoValue);
    }
    formed(alloc, scanner, shape, types, limit - 1)
}
