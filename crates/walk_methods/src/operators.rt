ghost use Rattle.std.specs.Prelude.{◌≡◌, ◌++◌, ◌^◌, ◌-◌, min, IfOk, Ok};
ghost use Rattle.epl_values.specs.declared.value.Value.TheVariants.{Text as TextValue};
ghost use Rattle.value_rules.specs.Costs.{cost_of};
ghost use Rattle.body_meaning.specs.declared.run.Frame.{Frame};
ghost use Rattle.body_meaning.specs.Expressions.{operate};
ghost use Rattle.body_meaning.specs.Methods.{text_charged};
ghost use Rattle.body_meaning.specs.Values.{compared, letters_of};
ghost use Rattle.value_steps.specs.Orderly.{AreOrderly, IsOrderly};
ghost use Rattle.walk_rules.specs.Ran.{Walks};
ghost use Rattle.path_bases.specs.Bases.{Stands};

use action_host::Host;
use epl_values::{Text, Value, Values};
use path_bases::{Base, value_at};
use std::alloc::Global;
use typed_program::{Comparison, Operator};
use value_steps::{bounded, calculated, compared, is_text, joined};
use walk_rules::{Stop, pay};

/// Integers are calculated, and texts joined, which is charged before their length is tested.
pub fn operate<H: Host>(
    alloc: Global,
    host: &mut H,
    operator: Operator,
    left: &Value,
    right: &Value,
) -> Result<Value, Stop>
    ensures means { (frame : Frame) → Walks (operate operator left.now right.now) (H.told host.old) frame (H.told host.new) frame result }
    ensures order { IfOk result IsOrderly }
{
    if is_text(left) {
        join(alloc, host, left, right)
    } else {
        Ok(calculated(operator, left, right)?)
    }
}

fn join<H: Host>(alloc: Global, host: &mut H, left: &Value, right: &Value) -> Result<Value, Stop>
    ensures means { (frame : Frame) → Walks (text_charged (letters_of left.now ++ letters_of right.now)) (H.told host.old) frame (H.told host.new) frame result }
    ensures order { IfOk result IsOrderly }
{
    let text = joined(alloc, left, right)?;
    charged_text(host, text)
}

/// A text, which is charged before its length is tested.
pub fn charged_text<H: Host>(host: &mut H, text: Text) -> Result<Value, Stop>
    ensures means { (frame : Frame) → Walks (text_charged text) (H.told host.old) frame (H.told host.new) frame result }
    ensures order { IfOk result IsOrderly }
{
    pay(host, text_cost(&text))?;
    Ok(bounded(text)?)
}

/// What a text costs.
fn text_cost(text: &Text) -> u64
    ensures { result ≡ min (2 ^ 64 - 1) (cost_of (TextValue text.now)) }
{
    1 + text.len() as u64 / 64
}

/// Both operands of a comparison.
pub fn compare(
    comparison: Comparison,
    left: &Base<'_>,
    right: &Base<'_>,
    globals: &Values,
) -> Result<Value, Stop>
    requires order { AreOrderly globals.now }
    ensures { (v w : _) → Stands globals.now left.now v → Stands globals.now right.now w → result ≡ Ok (compared comparison v w) }
{
    let left = value_at(left, globals)?;
    let right = value_at(right, globals)?;
    Ok(compared(comparison, left, right))
}
