//! The trees of program files. A crate in which a tree can be let go proves that again for each type of tree; the crates
//! above leave it to these.

ghost use Rattle.std.specs.Prelude.{◌≡◌, ◌++◌, ◌∷◌, [], IfOk};

use epl_tree::{Unit, Units};
use std::alloc::AllocError;

/// Trees and one more behind them. All are let go where there is no memory for it.
pub fn with_unit(trees: Units, tree: Unit) -> Result<Units, AllocError>
    ensures { IfOk result (λ all. all ≡ trees ++ tree ∷ []) }
{
    let mut all = trees;
    all.push(tree)?;
    Ok(all)
}

/// Lets trees go.
pub fn discard(_trees: Units) {}
