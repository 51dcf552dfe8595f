ghost use Rattle.std.specs.Prelude.{◌≡◌, IfOk};
ghost use Rattle.path_bases.specs.Locals.{global_in};

use epl_values::{Value, Values, copy};
use std::alloc::{AllocError, Global};

/// A copy of the value of a global; one that isn't there counts as no context.
pub fn global(alloc: Global, globals: &Values, number: u16) -> Result<Value, AllocError>
    ensures { IfOk result (λ v. v ≡ global_in globals.now number) }
{
    match globals.as_slice().get(number as usize) {
        Some(value) => copy(alloc, value),
        None => Ok(Value::NoContext),
    }
}
