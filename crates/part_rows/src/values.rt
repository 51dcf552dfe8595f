use crate::reader::{DEPTH, Reader};
use anyhow::{Result, bail};
use epl_values::{EventShapes, Value};
use std::alloc::{AllocError, Global};
use std::cmp::Ordering;
use std::fmt::Write;
use value_rules::{cost, default_of, has_shape, order, text_of};

/// The text of a value.
pub fn shown(alloc: Global, value: &Value, types: &EventShapes) -> Result<String, AllocError> {
    String::from_str(alloc, text_of(alloc, value, types)?.as_str())
}

/// A number behind a text.
pub fn put_number(out: &mut String, before: &str, number: u64) -> Result<(), AllocError> {
    out.push_str(before)?;
    write!(out, "{number}")
}

/// A number as a text.
pub fn number_shown(alloc: Global, number: u64) -> Result<String, AllocError> {
    let mut out = String::new(alloc);
    put_number(&mut out, "", number)?;
    Ok(out)
}

fn order_shown(order: Ordering) -> &'static str {
    match order {
        Ordering::Less => "less",
        Ordering::Equal => "equal",
        Ordering::Greater => "greater",
    }
}

/// Rows of values: costs, orders, texts, defaults and shapes.
pub fn answer(
    alloc: Global,
    types: &EventShapes,
    command: &str,
    line: &mut Reader<'_>,
) -> Result<String> {
    match command {
        "text" => Ok(shown(alloc, &line.value(alloc, types, DEPTH)?, types)?),
        "cost" => {
            let cost = cost(&line.value(alloc, types, DEPTH)?);
            Ok(number_shown(alloc, cost)?)
        }
        "order" => {
            let left = line.value(alloc, types, DEPTH)?;
            let right = line.value(alloc, types, DEPTH)?;
            Ok(String::from_str(alloc, order_shown(order(&left, &right)))?)
        }
        "default" => {
            let shape = line.shape(alloc, types, DEPTH)?;
            Ok(shown(alloc, &default_of(alloc, &shape, types)?, types)?)
        }
        "fits" => {
            let shape = line.shape(alloc, types, DEPTH)?;
            let fits = has_shape(types, &line.value(alloc, types, DEPTH)?, &shape);
            Ok(shown(alloc, &Value::Boolean(fits), types)?)
        }
        _ => bail!("no command"),
    }
}
