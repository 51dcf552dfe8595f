ghost use Rattle.expr_rules.specs.Asked.{wanting};
ghost use Rattle.expr_check.specs.Checks.{Checks, file_of};
ghost use Rattle.expr_check.specs.Expressions.{expr_found};

use epl_tree::Expr;
use expr_rules::Wanted;
use std::alloc::Global;
use type_table::{CheckFault, Scope, Table};
use typed_program::TypedExpr;

/// Checks an expression of a monitor: the typed expression, or exactly its first fault.
pub fn check_expression(
    alloc: Global,
    table: &Table,
    scope: &Scope,
    tree: &Expr,
    wanted: &Wanted,
) -> Result<TypedExpr, CheckFault>
    ensures { Checks (file_of table.now scope.now.monitor) result (expr_found table.now scope.now tree.now (wanting wanted.now)) }
{
    expr_check::check_expression(alloc, table, scope, tree, wanted)
}
