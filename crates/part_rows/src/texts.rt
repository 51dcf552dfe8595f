use crate::reader::Reader;
use crate::values::{number_shown, put_number, shown};
use anyhow::{Result, bail, ensure};
use epl_values::{EventShapes, Items, Shape, Text, Value};
use evt_text::{TextFault, behind_blanks, value_at};
use span_text::{lines_of, spot_at};
use std::alloc::{AllocError, Global};

/// The line and the column of a place in a text.
pub fn spot(alloc: Global, line: &mut Reader<'_>) -> Result<String> {
    let at = line.count()?;
    let text = line.text(alloc)?;
    let text = text.as_str();
    ensure!(
        at <= text.len() && text.len() < 4_294_967_295,
        "no such place"
    );
    let spot = spot_at(text, at);
    let mut out = number_shown(alloc, u64::from(spot.line))?;
    put_number(&mut out, ":", u64::from(spot.column))?;
    Ok(out)
}

/// The lines of a text.
pub fn lines(alloc: Global, types: &EventShapes, line: &mut Reader<'_>) -> Result<String> {
    let text = line.text(alloc)?;
    let text = text.as_str();
    ensure!(text.len() < 4_294_967_295, "a long text");
    let mut lines = Items::new(alloc);
    for line in lines_of(text) {
        push_text(alloc, &mut lines, line)?;
    }
    Ok(shown(alloc, &Value::Sequence(lines), types)?)
}

fn push_text(alloc: Global, items: &mut Items, text: &str) -> Result<(), AllocError> {
    items.push(Value::Text(Text::of(alloc, text)?))?;
    Ok(())
}

/// What follows the blanks.
pub fn blanks(alloc: Global, types: &EventShapes, line: &mut Reader<'_>) -> Result<String> {
    let text = line.text(alloc)?;
    let rest = Text::of(alloc, behind_blanks(text.as_str()))?;
    Ok(shown(alloc, &Value::Text(rest), types)?)
}

fn found_shown(
    alloc: Global,
    types: &EventShapes,
    found: &Result<(Value, usize), TextFault>,
) -> Result<String, AllocError> {
    match found {
        Ok((value, end)) => {
            let mut text = shown(alloc, value, types)?;
            put_number(&mut text, " to ", *end as u64)?;
            Ok(text)
        }
        Err(fault) => format!(in alloc; "{fault}"),
    }
}

/// The value that a text spells from a place on.
pub fn read(alloc: Global, line: &mut Reader<'_>) -> Result<String> {
    let types = EventShapes::new(alloc);
    let kind = line.word();
    let at = line.count()?;
    let text = line.text(alloc)?;
    let text = text.as_str();
    ensure!(at <= text.len(), "no such place");
    let found = match kind {
        "integer" => value_at(alloc, text, at, &Shape::Integer, &types),
        "string" => value_at(alloc, text, at, &Shape::Text, &types),
        _ => bail!("no such kind of value"),
    };
    Ok(found_shown(alloc, &types, &found)?)
}
