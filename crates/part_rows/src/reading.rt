ghost use Rattle.value_steps.specs.Orderly.{IsOrderly};

use crate::reader::{DEPTH, Reader};
use crate::values::{number_shown, put_number, shown};
use action_host::Fault;
use anyhow::{Result, bail};
use epl_values::{EventShapes, Value};
use std::alloc::{AllocError, Global};
use value_steps::{
    at_key, birth, bounded, characters, emptied, follow, has_key, integer, is_text, keys_of,
    letters, natural, negated, part, place_of, size_of, truth,
};

/// The name of a fault.
pub fn fault_shown(alloc: Global, fault: Fault) -> Result<String, AllocError> {
    format!(in alloc; "fault {fault:?}")
}

/// The text of a value, or the fault.
pub fn value_or_fault(
    alloc: Global,
    types: &EventShapes,
    answer: &Result<Value, Fault>,
) -> Result<String, AllocError> {
    match answer {
        Ok(value) => shown(alloc, value, types),
        Err(fault) => fault_shown(alloc, *fault),
    }
}

/// The text of a value, and the births of its elements, or its own where it is no sequence.
pub fn with_births(
    alloc: Global,
    types: &EventShapes,
    value: &Value,
) -> Result<String, AllocError> {
    let mut text = shown(alloc, value, types)?;
    text.push_str(" births")?;
    match value {
        Value::Sequence(items) => {
            for at in 0..items.len() {
                put_number(&mut text, " ", birth(items.get(at)))?;
            }
        }
        _ => put_number(&mut text, " ", birth(value))?,
    }
    Ok(text)
}

/// What is read in one value.
fn of_scalar(alloc: Global, types: &EventShapes, command: &str, value: &Value) -> Result<String> {
    let text = match command {
        "integer" => shown(alloc, &Value::Integer(integer(value)), types)?,
        "truth" => shown(alloc, &Value::Boolean(truth(value)), types)?,
        "birth" => number_shown(alloc, birth(value))?,
        "is_text" => shown(alloc, &Value::Boolean(is_text(value)), types)?,
        "letters" => String::from_str(alloc, letters(value))?,
        "characters" => number_shown(alloc, characters(letters(value)) as u64)?,
        "natural" => match natural(integer(value)) {
            Some(number) => number_shown(alloc, number as u64)?,
            None => String::from_str(alloc, "none")?,
        },
        _ => bail!("no command"),
    };
    Ok(text)
}

/// What is made of one value.
fn of_value(alloc: Global, types: &EventShapes, command: &str, value: &Value) -> Result<String>
    requires { IsOrderly value.now }
{
    match command {
        "size" => Ok(shown(alloc, &size_of(value), types)?),
        "keys" => Ok(shown(alloc, &keys_of(alloc, value)?, types)?),
        "negate" => Ok(value_or_fault(alloc, types, &negated(value))?),
        "emptied" => Ok(with_births(alloc, types, &emptied(alloc, value)?)?),
        _ => of_scalar(alloc, types, command, value),
    }
}

/// Rows that read one value.
pub fn answer(
    alloc: Global,
    types: &EventShapes,
    command: &str,
    line: &mut Reader<'_>,
) -> Result<String> {
    let value = line.value(alloc, types, DEPTH)?;
    of_value(alloc, types, command, &value)
}

/// A text as a value, if it isn't too long.
pub fn bounded_text(alloc: Global, types: &EventShapes, line: &mut Reader<'_>) -> Result<String> {
    let answer = bounded(line.text(alloc)?);
    Ok(value_or_fault(alloc, types, &answer)?)
}

fn part_or_fault(
    alloc: Global,
    types: &EventShapes,
    answer: Result<&Value, Fault>,
) -> Result<String, AllocError> {
    match answer {
        Ok(value) => shown(alloc, value, types),
        Err(fault) => fault_shown(alloc, fault),
    }
}

/// Rows that read a part of a value.
pub fn part_answer(
    alloc: Global,
    types: &EventShapes,
    command: &str,
    line: &mut Reader<'_>,
) -> Result<String> {
    let value = line.value(alloc, types, DEPTH)?;
    let moves = line.moves(alloc, types)?;
    if command == "follow" {
        return Ok(part_or_fault(alloc, types, follow(&value, moves.as_slice()))?);
    }
    let [step] = moves.as_slice() else {
        bail!("a part has a path of one step");
    };
    Ok(part_or_fault(alloc, types, part(&value, step))?)
}

/// The first place of a value in a sequence.
pub fn place(alloc: Global, types: &EventShapes, line: &mut Reader<'_>) -> Result<String> {
    let value = line.value(alloc, types, DEPTH)?;
    let wanted = line.value(alloc, types, DEPTH)?;
    Ok(shown(alloc, &place_of(&wanted, &value), types)?)
}

/// Whether a key is in a dictionary, and the value there.
pub fn entry(alloc: Global, types: &EventShapes, line: &mut Reader<'_>) -> Result<String> {
    let pairs = line.dictionary(alloc, types)?;
    let key = line.value(alloc, types, DEPTH)?;
    let there = has_key(&pairs, &key);
    let mut out = shown(alloc, &Value::Boolean(there), types)?;
    out.push_str(" ")?;
    match at_key(&pairs, &key) {
        Some(value) => out.push_str(shown(alloc, value, types)?.as_str())?,
        None => out.push_str("none")?,
    }
    Ok(out)
}
