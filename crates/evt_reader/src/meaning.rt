ghost use Rattle.std.specs.Prelude.{◌≡◌};
ghost use Rattle.evt_text.specs.Forms.{AreEventTypes};
ghost use Rattle.evt_reader.specs.Steps.{behind_gap, is_empty, is_flushing, is_batch, is_nothing, FindsMeaning, SaysTime};
ghost use Rattle.std.specs.Option.{option_map};

use crate::events::sent;
use crate::times::{are_blanks, behind_row, is_closed, timed};
use epl_values::EventShapes;
use evt_text::{TextFault, behind_blanks, behind_name};
use record_book::Item;
use std::alloc::Global;
use std::str;

fn is_empty(rest: &str) -> bool
    ensures { result ≡ is_empty rest.now }
{
    matches!(rest.as_bytes(), [] | [b'#', ..] | [b'/', b'/', ..])
}

#[tactic(auto, unfolding(crate::specs::Steps::is_flushing))]
fn is_flushing(text: &str) -> bool
    ensures { result ≡ is_flushing text.now }
{
    let Some(inside) = behind_name(text, "&FLUSHING(") else {
        return false;
    };
    let Some(rest) = behind_row(behind_blanks(inside)) else {
        return false;
    };
    is_closed(rest)
}

fn behind_gap(text: &str) -> Option<&str>
    ensures { option_map (λ rest. rest.now) result ≡ behind_gap text.now }
{
    let rest = behind_blanks(text);
    if rest.len() == text.len() {
        return None;
    }
    Some(rest)
}

#[tactic(auto, unfolding(crate::specs::Steps::is_batch))]
fn is_batch(text: &str) -> bool
    ensures { result ≡ is_batch text.now }
{
    let Some(gap) = behind_name(text, "BATCH") else {
        return false;
    };
    let Some(digits) = behind_gap(gap) else {
        return false;
    };
    let Some(rest) = behind_row(digits) else {
        return false;
    };
    are_blanks(rest.as_bytes())
}

#[tactic(auto, unfolding(crate::specs::Steps::is_nothing))]
fn is_nothing(text: &str) -> bool
    ensures { result ≡ is_nothing text.now }
{
    is_empty(text) || is_flushing(text) || is_batch(text)
}

/// A time that a line says, if it isn't less than the last one.
fn time_said(last: &i128, time: u64) -> Result<Option<Item>, TextFault>
    ensures { SaysTime last.now time result }
{
    let time = i128::from(time);
    if time < *last {
        return Err(TextFault::NoValue);
    }
    Ok(Some(Item::Time(time)))
}

/// What a line says behind the last time: nothing, or an item.
pub fn meaning(
    alloc: Global,
    types: &EventShapes,
    last: &i128,
    line: &[u8],
) -> Result<Option<Item>, TextFault>
    requires { AreEventTypes types.now }
    ensures { FindsMeaning types.now last.now line.now result }
{
    let Ok(text) = str::from_utf8(line) else {
        return Err(TextFault::NoValue);
    };
    let rest = behind_blanks(text);
    if is_nothing(rest) {
        return Ok(None);
    }
    if let Some(time) = timed(rest) {
        return time_said(last, time);
    }
    let (channel, value) = sent(alloc, types, rest)?;
    Ok(Some(Item::Event(channel, value)))
}
