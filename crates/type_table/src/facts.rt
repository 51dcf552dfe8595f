ghost use Rattle.std.specs.Prelude.{◌≡◌, ◌||◌, IfOk, min, nat_le};
ghost use Rattle.type_table.specs.Kinds.{trees};
ghost use Rattle.type_table.specs.Depths.{AreDepths};
ghost use Rattle.type_table.specs.Chains.{holds, contains_itself, field_count, whole_width};

use crate::chains::{Search, entry, leading, met};
use crate::depths::Depths;
use crate::kinds::Kinds;
use crate::pending::pending;
use crate::widths::{count, widths};
use epl_tree::TypeExpr;
use std::alloc::{AllocError, Global};

/// What the event types hold at any depth.
pub fn depths(alloc: Global, kinds: &Kinds<'_>) -> Result<Depths, AllocError>
    ensures { IfOk result (λ d. AreDepths (trees kinds.now.decls.items) d) }
{
    let search = Search {
        link: true,
        aims: false,
        target: "",
    };
    let holding = leading(alloc, kinds, search, false)?;
    let widths = widths(alloc, kinds)?;
    let pending = pending(alloc, kinds)?;
    Ok(Depths {
        holding,
        widths,
        pending,
    })
}

/// Whether a context or a listener is in a type at any depth.
pub fn holds(kinds: &Kinds<'_>, depths: &Depths, written: &TypeExpr) -> bool
    requires { AreDepths (trees kinds.now.decls.items) depths.now }
    ensures { result ≡ holds (trees kinds.now.decls.items) written.now }
{
    let search = Search {
        link: true,
        aims: false,
        target: "",
    };
    met(kinds, search, depths.holding.as_slice(), written)
}

/// The fields that a field of this type counts for, of which more than 257 count as that.
pub fn fields_of(kinds: &Kinds<'_>, depths: &Depths, written: &TypeExpr) -> u32
    requires { AreDepths (trees kinds.now.decls.items) depths.now }
    ensures { result ≡ min 257 (field_count (whole_width (trees kinds.now.decls.items)) written.now) }
{
    count(kinds, depths.widths.as_slice(), written)
}

/// Whether a chain of event types leads from a name to itself.
fn leads_back(alloc: Global, kinds: &Kinds<'_>, name: &str) -> Result<bool, AllocError>
    ensures { IfOk result (λ b. b ≡ contains_itself (trees kinds.now.decls.items) name.now) }
{
    let search = Search {
        link: false,
        aims: true,
        target: name,
    };
    let table = leading(alloc, kinds, search, false)?;
    Ok(entry(table.as_slice(), kinds.names.number_of(name)))
}

/// Whether the event type of a name contains itself. Only one that may be in a cycle is looked for along all chains.
pub fn contains_itself(
    alloc: Global,
    kinds: &Kinds<'_>,
    depths: &Depths,
    name: &str,
) -> Result<bool, AllocError>
    requires { AreDepths (trees kinds.now.decls.items) depths.now }
    ensures { IfOk result (λ b. b ≡ contains_itself (trees kinds.now.decls.items) name.now) }
{
    if !entry(depths.pending.as_slice(), kinds.names.number_of(name)) {
        return Ok(false);
    }
    leads_back(alloc, kinds, name)
}

/// Whether an event type of this name is past a limit behind so many others: too many of them, or one that contains itself.
pub fn is_past(
    alloc: Global,
    kinds: &Kinds<'_>,
    depths: &Depths,
    before: u32,
    name: &str,
) -> Result<bool, AllocError>
    requires { AreDepths (trees kinds.now.decls.items) depths.now }
    ensures { IfOk result (λ b. b ≡ (nat_le 1000 before || contains_itself (trees kinds.now.decls.items) name.now)) }
{
    if before >= 1000 {
        return Ok(true);
    }
    contains_itself(alloc, kinds, depths, name)
}
