ghost use Rattle.std.specs.Prelude.{◌≡◌, is_some, pos, IfOk};
ghost use Rattle.epl_values.specs.declared.value.Value.TheVariants.{Boolean, Integer, NoContext};
ghost use Rattle.value_rules.specs.Texts.{text_in};
ghost use Rattle.action_host.specs.Told.{Told};
ghost use Rattle.body_meaning.specs.declared.run.Frame.{Frame};
ghost use Rattle.body_meaning.specs.Methods.{called, change_lost, first, keys_of, place_charged, second, substring_charged, text_charged, value_charged};
ghost use Rattle.body_meaning.specs.Paths.{at_key};
ghost use Rattle.body_meaning.specs.Values.{characters, letters_of, pairs_of};
ghost use Rattle.value_steps.specs.Orderly.{AreOrderly, IsOrderly};
ghost use Rattle.walk_rules.specs.Ran.{Walks};
ghost use Rattle.path_bases.specs.Bases.{Stands, IsOrderlyBase};

use crate::operators::charged_text;
use action_host::Host;
use epl_values::{EventShapes, Value, Values, copy};
use path_bases::{Base, stop_of, value_at};
use std::alloc::Global;
use typed_program::Method;
use value_rules::text_of;
use value_steps::{alter, characters, has_key, keys_of, letters, place_of, size_of, substring};
use walk_rules::{Stop, pay_cost, quit};

/// A method of a value, with its arguments.
fn called<H: Host>(
    alloc: Global,
    types: &EventShapes,
    host: &mut H,
    method: Method,
    value: &Value,
    arguments: Values,
) -> Result<Value, Stop>
    requires value { IsOrderly value.now }
    requires order { AreOrderly arguments }
    ensures means { (frame : Frame) → Walks (called types.now method value.now arguments) (H.told host.old) frame (H.told host.new) frame result }
    ensures order { IfOk result IsOrderly }
{
    match method {
        Method::ToString => spelled(alloc, types, host, value),
        Method::Length => Ok(length_of(value)),
        Method::Substring => cut(alloc, host, value, &arguments),
        Method::Size => Ok(size_of(value)),
        Method::IndexOf => placed(host, value, &arguments),
        Method::HasKey => Ok(has(value, &arguments)),
        Method::Keys => keys(alloc, host, value),
        Method::Clone => cloned(alloc, host, value),
        Method::Quit => quit(host, value),
        method => lost(alloc, method, value, arguments),
    }
}

fn spelled<H: Host>(
    alloc: Global,
    types: &EventShapes,
    host: &mut H,
    value: &Value,
) -> Result<Value, Stop>
    ensures means { (frame : Frame) → Walks (text_charged (text_in types.now value.now)) (H.told host.old) frame (H.told host.new) frame result }
    ensures order { IfOk result IsOrderly }
{
    let text = text_of(alloc, value, types)?;
    charged_text(host, text)
}

fn length_of(value: &Value) -> Value
    ensures { result ≡ Integer (pos (characters (letters_of value.now))) }
{
    Value::Integer(characters(letters(value)) as i64)
}

/// The first argument; this value where there is none.
fn first_of<'v>(arguments: &'v Values, none: &'v Value) -> &'v Value
    requires { none.now ≡ NoContext }
    ensures { result.now ≡ first arguments.now }
{
    match arguments.as_slice() {
        [value, ..] => value,
        _ => none,
    }
}

fn second_of<'v>(arguments: &'v Values, none: &'v Value) -> &'v Value
    requires { none.now ≡ NoContext }
    ensures { result.now ≡ second arguments.now }
{
    match arguments.as_slice() {
        [_, value, ..] => value,
        _ => none,
    }
}

fn cut<H: Host>(
    alloc: Global,
    host: &mut H,
    value: &Value,
    arguments: &Values,
) -> Result<Value, Stop>
    ensures means { (frame : Frame) → Walks (substring_charged value.now arguments.now) (H.told host.old) frame (H.told host.new) frame result }
    ensures order { IfOk result IsOrderly }
{
    let none = Value::NoContext;
    let from = first_of(arguments, &none);
    let to = second_of(arguments, &none);
    match substring(alloc, value, from, to) {
        Ok(text) => charged(host, Value::Text(text)),
        Err(trouble) => Err(stop_of(trouble)),
    }
}

/// A value that costs what it is.
fn charged<H: Host>(host: &mut H, value: Value) -> Result<Value, Stop>
    requires { IsOrderly value }
    ensures means { (frame : Frame) → Walks (value_charged value) (H.told host.old) frame (H.told host.new) frame result }
    ensures order { IfOk result IsOrderly }
{
    pay_cost(host, &value)?;
    Ok(value)
}

fn placed<H: Host>(host: &mut H, sequence: &Value, arguments: &Values) -> Result<Value, Stop>
    ensures means { (frame : Frame) → Walks (place_charged sequence.now arguments.now) (H.told host.old) frame (H.told host.new) frame result }
    ensures order { IfOk result IsOrderly }
{
    let none = Value::NoContext;
    let wanted = first_of(arguments, &none);
    pay_cost(host, sequence)?;
    Ok(place_of(wanted, sequence))
}

fn has(value: &Value, arguments: &Values) -> Value
    requires { IsOrderly value.now }
    ensures { result ≡ Boolean (is_some (at_key (first arguments.now) (pairs_of value.now))) }
{
    let none = Value::NoContext;
    match value {
        Value::Dictionary(pairs) => Value::Boolean(has_key(pairs, first_of(arguments, &none))),
        _ => Value::Boolean(false),
    }
}

fn keys<H: Host>(alloc: Global, host: &mut H, value: &Value) -> Result<Value, Stop>
    requires { IsOrderly value.now }
    ensures means { (frame : Frame) → Walks (value_charged (keys_of value.now)) (H.told host.old) frame (H.told host.new) frame result }
    ensures order { IfOk result IsOrderly }
{
    let keys = keys_of(alloc, value)?;
    pay_cost(host, &keys)?;
    Ok(keys)
}

fn cloned<H: Host>(alloc: Global, host: &mut H, value: &Value) -> Result<Value, Stop>
    requires { IsOrderly value.now }
    ensures means { (frame : Frame) → Walks (value_charged value.now) (H.told host.old) frame (H.told host.new) frame result }
    ensures order { IfOk result IsOrderly }
{
    pay_cost(host, value)?;
    Ok(copy(alloc, value)?)
}

/// A change of a value that no variable holds: nothing of it is seen but its fault.
fn lost(alloc: Global, method: Method, value: &Value, arguments: Values) -> Result<Value, Stop>
    requires value { IsOrderly value.now }
    requires order { AreOrderly arguments }
    ensures means { (told : Told) (frame : Frame) → Walks (change_lost method arguments value.now) told frame told frame result }
    ensures order { IfOk result IsOrderly }
{
    let mut changed = copy(alloc, value)?;
    match alter(alloc, &mut changed, &[], method, arguments) {
        Ok(()) => Ok(Value::NoContext),
        Err(trouble) => Err(stop_of(trouble)),
    }
}

/// A method of a base, with its arguments.
pub fn method<H: Host>(
    alloc: Global,
    types: &EventShapes,
    host: &mut H,
    method: Method,
    base: &Base<'_>,
    arguments: Values,
    globals: &Values,
) -> Result<Value, Stop>
    requires globals { AreOrderly globals.now }
    requires base { IsOrderlyBase base.now }
    requires order { AreOrderly arguments }
    ensures means { (v : _) → Stands globals.now base.now v → (frame : Frame) → Walks (called types.now method v arguments) (H.told host.old) frame (H.told host.new) frame result }
    ensures order { IfOk result IsOrderly }
{
    let value = value_at(base, globals)?;
    called(alloc, types, host, method, value, arguments)
}
