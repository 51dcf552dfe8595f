ghost use Rattle.expr_check.specs.Checks.{Checks, file_of};
ghost use Rattle.listener_check.specs.Terms.{term_found};

use epl_tree::EventExpr;
use std::alloc::Global;
use type_table::{CheckFault, Scope, Table};
use typed_program::TypedTerm;

/// Checks an event expression of a monitor: the typed term, or exactly its first fault.
pub fn check_listener(
    alloc: Global,
    table: &Table,
    scope: &Scope,
    tree: &EventExpr,
) -> Result<TypedTerm, CheckFault>
    ensures { Checks (file_of table.now scope.now.monitor) result (term_found table.now scope.now tree.now) }
{
    listener_check::check_listener(alloc, table, scope, tree)
}
