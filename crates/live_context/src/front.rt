ghost use Rattle.std.specs.Prelude.{◌≡◌, ◌++◌, [], reverse, OnOk};
ghost use Rattle.live_context.specs.Lent.{listed};

use context_meaning::{Waiting, Waitings};
use std::alloc::AllocError;

/// The row is put before what waits, whose last is the first.
pub fn put_row(waiting: &mut Waitings, row: &mut Waitings) -> Result<(), AllocError>
    ensures before { OnOk result (reverse waiting.new ≡ row.old ++ reverse waiting.old) }
    ensures empty { OnOk result (row.new ≡ []) }
{
    while let Some(thing) = row.pop() {
        waiting.push(thing)?;
    }
    Ok(())
}

/// A mark, where there is one, is put before what waits.
pub fn put_mark(waiting: &mut Waitings, mark: Option<Waiting>) -> Result<(), AllocError>
    ensures { OnOk result (reverse waiting.new ≡ listed mark ++ reverse waiting.old) }
{
    match mark {
        None => Ok(()),
        Some(mark) => waiting.push(mark),
    }
}
