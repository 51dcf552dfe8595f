ghost use Rattle.std.specs.Prelude.{◌≤◌, length};
ghost use Rattle.evt_text.specs.Forms.{HasNames};
ghost use Rattle.event_types.specs.Types.{form_of, types_in, AreTypes, HasKnownFields, HasNoCycle};
ghost use Rattle.evt_text.specs.Spelling.{FindsValue};

use crate::TextFault;
use crate::scanner::Scanner;
use crate::values::value;
use epl_values::{EventShapes, Shape, Value};
use std::alloc::Global;

/// The value of this shape with the longest spelling from byte `at` on, and the place behind that spelling.
/// `NoValue` exactly where none is spelled there. Calls nest as the text does, and no deeper than the shape and the event
/// types allow; that no type contains itself keeps a long text from nesting them past the stack.
pub fn value_at(
    alloc: Global,
    text: &str,
    at: usize,
    shape: &Shape,
    types: &EventShapes,
) -> Result<(Value, usize), TextFault>
    requires place { at ≤ length text.now }
    requires shape { AreTypes types.now (types_in (form_of shape.now)) }
    requires names { HasNames types.now }
    requires fields { HasKnownFields types.now }
    requires cycle { HasNoCycle types.now }
    ensures { FindsValue types.now shape.now text.now at result }
{
    if !text.is_char_boundary(at) {
        return Err(TextFault::NoValue);
    }
    let rest = &text[at..];
    let mut scanner = Scanner { rest };
    let value = value(alloc, &mut scanner, shape, types, rest.len() + 1)?;
    Ok((value, text.len() - scanner.rest.len()))
}
