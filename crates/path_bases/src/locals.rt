ghost use Rattle.std.specs.Prelude.{◌≡◌, IfOk};
ghost use Rattle.value_steps.specs.Orderly.{AreOrderly, IsOrderly};
ghost use Rattle.path_bases.specs.Locals.{got_value, values_in, local_in};
ghost use Rattle.path_bases.specs.Bases.{Stands, IsOrderlyBase};

use crate::base::Base;
use epl_values::{Value, copy};
use lists::List;
use std::alloc::{AllocError, Global};

/// A local of a running body: a value of its own, or one that the body around the call lends.
#[derive(Drop)]
pub enum Got<'x> {
    Own(Value),
    Lent(&'x Value),
}

/// The locals of a running body, by number.
pub type Gots<'x> = List<Got<'x>>;

/// The value of a local.
pub fn seen<'s>(got: &'s Got<'_>) -> &'s Value
    ensures { result.now ≡ got_value got.now }
{
    match got {
        Got::Own(value) => value,
        Got::Lent(value) => value,
    }
}

/// Takes the value of a local; a lent one is copied.
pub fn owned(alloc: Global, got: Got<'_>) -> Result<Value, AllocError>
    ensures { IfOk result (λ v. v ≡ got_value got.entry) }
{
    match got {
        Got::Own(value) => Ok(value),
        Got::Lent(value) => copy(alloc, value),
    }
}

/// A copy of the value of a local; one that isn't there counts as no context.
pub fn local(alloc: Global, locals: &Gots<'_>, number: u16) -> Result<Value, AllocError>
    ensures { IfOk result (λ v. v ≡ local_in locals.now number) }
{
    match locals.as_slice().get(number as usize) {
        Some(got) => copy(alloc, seen(got)),
        None => Ok(Value::NoContext),
    }
}

/// A local as the base of a path.
pub fn local_base<'s>(locals: &'s Gots<'_>, number: u16) -> Base<'s>
    requires { AreOrderly (values_in locals.now) }
    ensures stands { (globals : _) → Stands globals result (local_in locals.now number) }
    ensures order { IsOrderlyBase result }
{
    match locals.as_slice().get(number as usize) {
        Some(got) => Base::Lent(seen(got)),
        None => Base::Own(Value::NoContext),
    }
}
