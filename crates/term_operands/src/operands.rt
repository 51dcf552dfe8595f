ghost use Rattle.std.specs.Prelude.{◌≡◌, ◌<◌, ◌≤ℤ◌, ◌+ℤ◌, Some, pos, negsuc, slice_get, IfOk};
ghost use Rattle.std.specs.Option.{option_copied};
ghost use Rattle.term_meaning.specs.Operands.{along, at_path, computed, duration, event_of, field_of, given, minus, number_of, operand_value, plus, time_after};
ghost use Rattle.value_rules.specs.Defaults.{default_of};
ghost use Rattle.term_meaning.specs.UnderWay.{setting_of};
ghost use Rattle.term_operands.specs.Small.{IsSmall, IsWord};

use epl_values::{EventShapes, Text, Value};
use std::alloc::{AllocError, Global};
use term_meaning::{Binding, Computed};
use typed_program::{Duration, FieldNumbers, Local, Operand, Site};
use value_rules::default_of;

/// What an event expression is started over: the event types, its site, the site's operands as they were at the `on`, and the
/// time in tenths of a second.
#[derive(Clone, Copy)]
pub struct Origin<'a> {
    pub alloc: Global,
    pub types: &'a EventShapes,
    pub site: &'a Site,
    pub operands: &'a [Value],
    pub time: i128,
    ghost begun: { pos 0 ≤ℤ time },
    ghost soon: { time ≤ℤ pos 10000000000000 },
}

/// The event that a name is bound to.
fn event_of(seen: &[Binding], name: u16) -> Option<&Value>
    ensures { option_copied result ≡ event_of name seen.now }
{
    'bindings: for binding in seen {
        if binding.local == name {
            return Some(&binding.event);
        }
    }
    None
}

fn value_at(values: &[Value], place: u16) -> Option<&Value>
    ensures { option_copied result ≡ slice_get values.now place }
{
    values.get(place as usize)
}

fn local_at(locals: &[Local], place: u16) -> Option<&Local>
    ensures { option_copied result ≡ slice_get locals.now place }
{
    locals.get(place as usize)
}

fn field_of(value: &Value, field: u16) -> Option<&Value>
    ensures { option_copied result ≡ field_of field value.now }
{
    match value {
        Value::Event(_, fields) => value_at(fields.as_slice(), field),
        _ => None,
    }
}

/// What fields reach from a value.
fn along<'a>(value: &'a Value, fields: &[u16]) -> Option<&'a Value>
    ensures { option_copied result ≡ along fields.now (Some value.now) }
{
    let mut at = value;
    'fields: for field in fields {
        let Some(next) = field_of(at, *field) else {
            return None;
        };
        at = next;
    }
    Some(at)
}

fn computed(alloc: Global, value: Option<&Value>) -> Result<Computed, AllocError>
    ensures is { IfOk result (λ c. c ≡ computed (option_copied value.entry)) }
    ensures word { IfOk result IsWord }
{
    match value {
        Some(Value::Integer(number)) => Ok(Computed::Number(*number as i128)),
        Some(Value::Boolean(truth)) => Ok(Computed::Truth(*truth)),
        Some(Value::Text(text)) => Ok(Computed::Letters(Text::of(alloc, text.as_str())?)),
        _ => Ok(Computed::Missing),
    }
}

/// What fields reach from the first value of a name.
fn default_path(
    alloc: Global,
    types: &EventShapes,
    local: &Local,
    fields: &FieldNumbers,
) -> Result<Computed, AllocError>
    ensures is { IfOk result (λ c. c ≡ computed (along fields.now (Some (default_of types.now local.now.shape)))) }
    ensures word { IfOk result IsWord }
{
    let value = default_of(alloc, &local.shape, types)?;
    computed(alloc, along(&value, fields.as_slice()))
}

fn plus(left: Computed, right: Computed) -> Computed
    requires left { IsWord left }
    requires right { IsWord right }
    ensures is { result ≡ plus left right }
    ensures small { IsSmall result }
{
    let Computed::Number(first) = left else {
        return Computed::Missing;
    };
    let Computed::Number(second) = right else {
        return Computed::Missing;
    };
    Computed::Number(first + second)
}

fn minus(left: Computed, right: Computed) -> Computed
    requires left { IsWord left }
    requires right { IsWord right }
    ensures is { result ≡ minus left right }
    ensures small { IsSmall result }
{
    let Computed::Number(first) = left else {
        return Computed::Missing;
    };
    let Computed::Number(second) = right else {
        return Computed::Missing;
    };
    Computed::Number(first - second)
}

impl Origin<'_> {
    fn given(&self, place: u16) -> Result<Computed, AllocError>
        ensures is { IfOk result (λ c. c ≡ given (setting_of self.entry.now.types.now self.entry.now.site.now self.entry.now.operands.now self.entry.now.time) place) }
        ensures word { IfOk result IsWord }
    {
        computed(self.alloc, value_at(self.operands, place))
    }

    fn at_path(
        &self,
        seen: &[Binding],
        name: u16,
        fields: &FieldNumbers,
    ) -> Result<Computed, AllocError>
        ensures is { IfOk result (λ c. c ≡ at_path (setting_of self.entry.now.types.now self.entry.now.site.now self.entry.now.operands.now self.entry.now.time) seen.now name fields.now) }
        ensures word { IfOk result IsWord }
    {
        match event_of(seen, name) {
            Some(event) => computed(self.alloc, along(event, fields.as_slice())),
            None => match local_at(self.site.bound.as_slice(), name) {
                Some(local) => default_path(self.alloc, self.types, local, fields),
                None => Ok(Computed::Missing),
            },
        }
    }

    /// An operand as it is when its template becomes active.
    pub fn operand(&self, seen: &[Binding], operand: &Operand) -> Result<Computed, AllocError>
        ensures is { IfOk result (λ c. c ≡ operand_value (setting_of self.entry.now.types.now self.entry.now.site.now self.entry.now.operands.now self.entry.now.time) seen.now operand.now) }
        ensures small { IfOk result IsSmall }
    {
        match operand {
            Operand::Given(place) => self.given(*place),
            Operand::Bound(name, fields) => self.at_path(seen, *name, fields),
            Operand::BoundPlus(name, fields, place) => {
                let base = self.at_path(seen, *name, fields)?;
                let more = self.given(*place)?;
                Ok(plus(base, more))
            }
            Operand::BoundMinus(name, fields, place) => {
                let base = self.at_path(seen, *name, fields)?;
                let less = self.given(*place)?;
                Ok(minus(base, less))
            }
        }
    }

    fn number(&self, place: u16) -> i64
        ensures { result ≡ number_of (given (setting_of self.entry.now.types.now self.entry.now.site.now self.entry.now.operands.now self.entry.now.time) place) }
    {
        match value_at(self.operands, place) {
            Some(Value::Integer(number)) => *number,
            _ => 0,
        }
    }

    /// The time that lies a duration from now, in tenths of a second.
    pub fn time_after(&self, duration: Duration) -> i128
        ensures { result ≡ time_after (setting_of self.entry.now.types.now self.entry.now.site.now self.entry.now.operands.now self.entry.now.time) duration }
    {
        let number = self.number(duration.operand) as i128;
        if duration.tenths {
            self.time + number
        } else {
            self.time + number * 10
        }
    }
}
