ghost use Rattle.std.specs.Prelude.{◌≡◌, ◌≤◌, ◌<◌, length, MatchOption, IsTrue, true, ◌↔◌, ◌||◌};
ghost use Rattle.epl_values.specs.declared.shape.Shape.TheVariants.{Event as OfEvent};
ghost use Rattle.evt_text.specs.Spelling.{FindsValue};
ghost use Rattle.evt_text.specs.Forms.{AreEventTypes, is_letter, is_digit};
ghost use Rattle.evt_text.specs.Reading.{Reads};
ghost use Rattle.evt_reader.specs.Steps.{name_front, is_quote, channel_at, HasName, LacksName, FindsEvent, FindsSent};

use crate::times::are_blanks;
use epl_values::{EventShape, EventShapes, Shape, Text, Value};
use evt_text::{Scanner, TextFault, value_at};
use std::alloc::Global;

fn is_name_byte(byte: u8) -> bool
    ensures { result ≡ (is_letter byte || is_digit byte) }
{
    matches!(byte, b'A'..=b'Z' | b'a'..=b'z' | b'_' | b'0'..=b'9')
}

fn name_len(text: &str) -> usize
    ensures count { result ≡ length (name_front text.now) }
    ensures within { result ≤ length text.now }
{
    for (at, byte) in text.as_bytes().iter().enumerate() {
        if !is_name_byte(*byte) {
            return at;
        }
    }
    text.len()
}

fn has_name(event: &EventShape, name: &[u8]) -> bool
    ensures { IsTrue result ↔ (event.now.name ≡ name.now) }
{
    event.name.as_str().as_bytes() == name
}

fn type_of(types: &EventShapes, name: &[u8]) -> Option<u16>
    requires { length types.now ≤ 65536 }
    ensures { MatchOption result (LacksName types.now name.now) (HasName types.now name.now) }
{
    for at in 0..types.len() {
        if has_name(types.get(at), name) {
            return Some(at as u16);
        }
    }
    None
}

fn type_in_front(types: &EventShapes, text: &str) -> Option<u16>
    requires { length types.now ≤ 65536 }
    ensures { MatchOption result (LacksName types.now (name_front text.now)) (HasName types.now (name_front text.now)) }
{
    type_of(types, &text.as_bytes()[..name_len(text)])
}

fn event_at(
    alloc: Global,
    types: &EventShapes,
    number: u16,
    text: &str,
) -> Result<(Value, usize), TextFault>
    requires types { AreEventTypes types.now }
    requires number { number < length types.now }
    ensures { FindsValue types.now (OfEvent number) text.now 0 result }
{
    let shape = Shape::Event(number);
    let found = value_at(alloc, text, 0, &shape, types);
    found
}

fn event(alloc: Global, types: &EventShapes, text: &str) -> Result<Value, TextFault>
    requires { AreEventTypes types.now }
    ensures { FindsEvent types.now text.now result }
{
    let Some(number) = type_in_front(types, text) else {
        return Err(TextFault::NoValue);
    };
    let (value, end) = event_at(alloc, types, number, text)?;
    if !are_blanks(&text.as_bytes()[end..]) {
        return Err(TextFault::NoValue);
    }
    Ok(value)
}

fn is_quote(text: &str) -> bool
    ensures { result ≡ is_quote text.now }
{
    matches!(text.as_bytes(), [b'"', ..])
}

/// Reads a channel, and passes the comma behind it.
#[tactic(auto, unfolding(crate::specs::Steps::channel_at))]
fn channel(alloc: Global, scanner: &mut Scanner) -> Result<Text, TextFault>
    ensures { Reads result scanner.new.rest.now (channel_at scanner.old.rest.now) }
{
    let channel = scanner.string(alloc)?;
    scanner.blanks();
    scanner.sign(',')?;
    scanner.blanks();
    Ok(channel)
}

fn channelled(alloc: Global, types: &EventShapes, text: &str) -> Result<(Text, Value), TextFault>
    requires types { AreEventTypes types.now }
    requires quote { is_quote text.now ≡ true }
    ensures { FindsSent types.now text.now result }
{
    let mut scanner = Scanner { rest: text };
    let channel = channel(alloc, &mut scanner)?;
    let value = event(alloc, types, scanner.rest)?;
    Ok((channel, value))
}

/// The event of a line with its channel, which is empty where none stands.
pub fn sent(alloc: Global, types: &EventShapes, text: &str) -> Result<(Text, Value), TextFault>
    requires { AreEventTypes types.now }
    ensures { FindsSent types.now text.now result }
{
    if is_quote(text) {
        return channelled(alloc, types, text);
    }
    let value = event(alloc, types, text)?;
    Ok((Text::new(alloc), value))
}
