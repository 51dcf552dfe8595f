ghost use Rattle.std.specs.Option.{option_map};
ghost use Rattle.std.specs.Prelude.{◌≡◌, ◌++◌, map, slice_get, IfOk, OnOk};
ghost use Rattle.std.specs.List.{flat_map};
ghost use Rattle.value_rules.specs.Texts.{comma_before, escape_of, escaped, name_in, pair_text, quoted, text_in, with_commas};

use epl_values::{EventShapes, Items, Pair, Pairs, Text, Value};
use std::alloc::{AllocError, Global};

/// A value as text: `[1,2]`, `{"a":true}`, `Name(-5,"b\n")`. A context or a listener counts as the empty text.
pub fn text_of(alloc: Global, value: &Value, types: &EventShapes) -> Result<Text, AllocError>
    ensures { IfOk result (λ t. t ≡ text_in types.now value.now) }
{
    let mut out = Text::new(alloc);
    push_value(&mut out, value, types)?;
    Ok(out)
}

#[cycle(texts)]
fn push_value(out: &mut Text, value: &Value, types: &EventShapes) -> Result<(), AllocError>
    ensures { OnOk result (out.new ≡ out.old ++ text_in types.now value.now) }
{
    match value {
        Value::Integer(number) => out.push_integer(*number),
        Value::Boolean(true) => out.push("true"),
        Value::Boolean(false) => out.push("false"),
        Value::Text(text) => push_quoted(out, text.as_str()),
        Value::Sequence(items) => {
            out.push("[")?;
            push_items(out, items, types)?;
            out.push("]")?;
            Ok(())
        }
        Value::Dictionary(pairs) => {
            out.push("{")?;
            push_pairs(out, pairs, types)?;
            out.push("}")?;
            Ok(())
        }
        Value::Event(number, fields) => {
            push_name(out, *number, types)?;
            out.push("(")?;
            push_values(out, fields.as_slice(), types)?;
            out.push(")")?;
            Ok(())
        }
        Value::Context(_) | Value::NoContext | Value::Listener(_) => Ok(()),
    }
}

#[cycle(texts)]
fn push_values(out: &mut Text, values: &[Value], types: &EventShapes) -> Result<(), AllocError>
    ensures { OnOk result (out.new ≡ out.old ++ with_commas (map (text_in types.now) values.now)) }
{
    let mut first = true;
    for value in values {
        push_comma(out, first)?;
        push_value(out, value, types)?;
        first = false;
    }
    Ok(())
}

#[cycle(texts)]
fn push_items(out: &mut Text, items: &Items, types: &EventShapes) -> Result<(), AllocError>
    ensures { OnOk result (out.new ≡ out.old ++ with_commas (map (text_in types.now) items.now)) }
{
    let mut first = true;
    for at in 0..items.len() {
        push_comma(out, first)?;
        push_value(out, items.get(at), types)?;
        first = false;
    }
    Ok(())
}

#[cycle(texts)]
fn push_pairs(out: &mut Text, pairs: &Pairs, types: &EventShapes) -> Result<(), AllocError>
    ensures { OnOk result (out.new ≡ out.old ++ with_commas (map (pair_text types.now) pairs.now)) }
{
    let mut first = true;
    for at in 0..pairs.len() {
        push_comma(out, first)?;
        push_pair(out, pairs.get(at), types)?;
        first = false;
    }
    Ok(())
}

#[cycle(texts)]
fn push_pair(out: &mut Text, pair: &Pair, types: &EventShapes) -> Result<(), AllocError>
    ensures { OnOk result (out.new ≡ out.old ++ pair_text types.now pair.now) }
{
    push_value(out, &pair.key, types)?;
    out.push(":")?;
    push_value(out, &pair.value, types)
}

fn push_comma(out: &mut Text, first: bool) -> Result<(), AllocError>
    ensures { OnOk result (out.new ≡ out.old ++ comma_before first) }
{
    if first { Ok(()) } else { out.push(",") }
}

fn push_name(out: &mut Text, number: u16, types: &EventShapes) -> Result<(), AllocError>
    ensures { OnOk result (out.new ≡ out.old ++ name_in (slice_get types.now number)) }
{
    let at = usize::from(number);
    if at >= types.len() {
        return Ok(());
    }
    out.push(types.get(at).name.as_str())
}

fn push_quoted(out: &mut Text, text: &str) -> Result<(), AllocError>
    ensures { OnOk result (out.new ≡ out.old ++ quoted text.now) }
{
    out.push("\"")?;
    push_escaped(out, text)?;
    out.push("\"")?;
    Ok(())
}

fn push_escaped(out: &mut Text, text: &str) -> Result<(), AllocError>
    ensures { OnOk result (out.new ≡ out.old ++ flat_map escaped text.now) }
{
    let mut from = 0;
    for (at, byte) in text.as_bytes().iter().enumerate() {
        if let Some(escape) = escape_of(*byte) {
            out.push(&text[from..at])?;
            out.push(escape)?;
            from = at + 1;
        }
    }
    out.push(&text[from..])
}

fn escape_of(byte: u8) -> Option<&'static str>
    ensures { option_map (λ escape. escape.now) result ≡ escape_of byte }
{
    if byte == b'"' {
        Some("\\\"")
    } else if byte == b'\\' {
        Some("\\\\")
    } else if byte == b'\n' {
        Some("\\n")
    } else if byte == b'\r' {
        Some("\\r")
    } else if byte == b'\t' {
        Some("\\t")
    } else {
        None
    }
}
