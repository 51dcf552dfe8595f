ghost use Rattle.std.specs.Prelude.{◌≡◌, ◌++◌, ◌∷◌, [], false, OnOk};
ghost use Rattle.type_table.specs.Found.{Clears, told};
ghost use Rattle.type_table.specs.Gathers.{when};

use crate::fault::{Fault, Refusal};
use span_text::Spot;

fn refused(code: u8, spot: Spot) -> Result<(), Refusal>
    ensures { Clears result (told spot (code ∷ [])) }
{
    Err(Refusal::Fault(Fault { code, spot }))
}

/// Tells a name that was declared before, or that is past a limit.
pub fn named(spot: Spot, again: bool, past: bool) -> Result<(), Refusal>
    ensures told { Clears result (told spot (when again 1 ++ when past 4)) }
    ensures new { OnOk result (again ≡ false) }
    ensures within { OnOk result (past ≡ false) }
{
    if again {
        return refused(1, spot);
    }
    if past {
        return refused(4, spot);
    }
    Ok(())
}

/// Tells the name of a field that was declared before, whose type holds a context or a listener, or that is past a limit.
pub fn placed(spot: Spot, again: bool, holds: bool, past: bool) -> Result<(), Refusal>
    ensures { Clears result (told spot (when again 1 ++ when holds 3 ++ when past 4)) }
{
    if again {
        return refused(1, spot);
    }
    if holds {
        return refused(3, spot);
    }
    if past {
        return refused(4, spot);
    }
    Ok(())
}

/// Tells the name of a monitor that was declared before, that is past a limit, or that is without what it needs.
pub fn headed(spot: Spot, again: bool, past: bool, bare: bool) -> Result<(), Refusal>
    ensures told { Clears result (told spot (when again 1 ++ when past 4 ++ when bare 5)) }
    ensures new { OnOk result (again ≡ false) }
    ensures within { OnOk result (past ≡ false) }
{
    if again {
        return refused(1, spot);
    }
    if past {
        return refused(4, spot);
    }
    if bare {
        return refused(5, spot);
    }
    Ok(())
}
