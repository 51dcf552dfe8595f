ghost use Rattle.std.specs.Prelude.{◌≡◌, IfOk, length, map};
ghost use Rattle.type_table.specs.Found.{Finds};
ghost use Rattle.expr_rules.specs.Asked.{demand_of, asking, wanting, assigned};
ghost use Rattle.expr_rules.specs.Names.{seen, name_found};
ghost use Rattle.expr_rules.specs.Postfix.{demand_before, walked_from};
ghost use Rattle.expr_check.specs.Expressions.{expr_found, part_of, step_of};
ghost use Rattle.expr_rules.specs.Calls.{typed_arguments, no_arguments, call_paths, param_wants};
ghost use Rattle.expr_check.specs.Checks.{Checks, file_of, place_walk, place_found, target_of, variable_of};

use crate::walk::{judge_node, walked_from};
use epl_tree::{Expr, Exprs, Place};
use epl_values::Shape;
use expr_rules::{
    Arguments, Asked, Judged, Need, Paths, Walk, Wanted, assigned, demand_before, leads, name_of,
    need_of, need_wanted, no_arguments, param_wants,
};
use std::alloc::{AllocError, Global};
use type_table::{CheckFault, ParamHeads, Refusal, Scope, Table};
use typed_program::{TypedExpr, TypedExprs, TypedNode, TypedPlace, Variable};

/// What is assigned, and whether its shape is known.
#[derive(Drop)]
pub struct Target {
    pub place: TypedPlace,
    pub known: bool,
}

#[tactic(auto, using(expr_rules::proofs::Then::binds))]
fn typed(
    alloc: Global,
    table: &Table,
    scope: &Scope,
    tree: &Expr,
    need: Need,
) -> Result<TypedExpr, Refusal>
    ensures { Finds result (expr_found table.now scope.now tree.now (demand_of need.entry)) }
{
    let judged = judge_node(alloc, table, scope, tree, need)?;
    Ok(judged.typed)
}

/// An expression at a place: the typed expression, or its first fault.
pub fn judge(
    alloc: Global,
    table: &Table,
    scope: &Scope,
    tree: &Expr,
    asked: Asked,
) -> Result<TypedExpr, Refusal>
    ensures { Finds result (expr_found table.now scope.now tree.now (asking asked.entry)) }
{
    typed(alloc, table, scope, tree, need_of(asked))
}

/// The file of a monitor.
pub fn file_of(table: &Table, monitor: u16) -> u32
    ensures { result ≡ file_of table.now monitor }
{
    match table.monitors.as_slice().get(usize::from(monitor)) {
        Some(monitor) => monitor.file,
        None => 0,
    }
}

/// Checks an expression of a monitor: the typed expression, or exactly its first fault.
pub fn check_expression(
    alloc: Global,
    table: &Table,
    scope: &Scope,
    tree: &Expr,
    wanted: &Wanted,
) -> Result<TypedExpr, CheckFault>
    ensures { Checks (file_of table.now scope.now.monitor) result (expr_found table.now scope.now tree.now (wanting wanted.now)) }
{
    match typed(alloc, table, scope, tree, need_wanted(wanted)) {
        Ok(typed) => Ok(typed),
        Err(Refusal::Fault(fault)) => {
            Err(CheckFault::Typing(fault.code, file_of(table, scope.monitor), fault.spot))
        }
        Err(Refusal::Memory) => Err(CheckFault::Memory),
    }
}

fn variable_of(node: &TypedNode) -> Variable
    ensures { result ≡ variable_of node.now }
{
    match node {
        TypedNode::Global(number) => Variable::Global(*number),
        TypedNode::Local(number) => Variable::Local(*number),
        _ => Variable::Local(0),
    }
}

fn target_of(walk: Walk) -> Target
    ensures { result ≡ target_of walk }
{
    let Walk {
        first,
        suffixes,
        shape,
        root: _,
    } = walk;
    let variable = variable_of(&first.node);
    match shape {
        Some(shape) => Target {
            place: TypedPlace {
                variable,
                shape,
                steps: suffixes,
            },
            known: true,
        },
        None => Target {
            place: TypedPlace {
                variable,
                shape: Shape::Integer,
                steps: suffixes,
            },
            known: false,
        },
    }
}

/// The variable of a place.
fn place_first(alloc: Global, scope: &Scope, tree: &Place, changed: bool) -> Result<Judged, Refusal>
    ensures { Finds result (name_found tree.now.spot (demand_before changed assigned (length tree.now.steps)) (seen scope.now tree.now.name)) }
{
    let before = demand_before(changed, assigned(), tree.steps.len());
    name_of(alloc, scope, tree.spot, before, tree.name.as_str())
}

/// The steps of a place behind its variable.
fn place_rest(
    alloc: Global,
    table: &Table,
    scope: &Scope,
    tree: &Place,
    changed: bool,
    judged: Judged,
) -> Result<Walk, Refusal>
    ensures { Finds result (walked_from tree.now.spot changed assigned (map (step_of table.now scope.now) tree.now.steps) judged) }
{
    walked_from(
        alloc,
        table,
        scope,
        tree.spot,
        changed,
        assigned(),
        &tree.steps,
        judged,
    )
}

fn place_walk(
    alloc: Global,
    table: &Table,
    scope: &Scope,
    tree: &Place,
    changed: bool,
) -> Result<Walk, Refusal>
    ensures { Finds result (place_walk table.now scope.now tree.now changed) }
{
    let judged = place_first(alloc, scope, tree, changed)?;
    place_rest(alloc, table, scope, tree, changed, judged)
}

/// What is assigned, or its first fault.
pub fn place(alloc: Global, table: &Table, scope: &Scope, tree: &Place) -> Result<Target, Refusal>
    ensures { Finds result (place_found table.now scope.now tree.now) }
{
    let changed = leads(true, &tree.steps);
    let walk = place_walk(alloc, table, scope, tree, changed)?;
    Ok(target_of(walk))
}

fn start_of(alloc: Global, params: &ParamHeads, is_call: bool) -> Result<Arguments, AllocError>
    ensures { IfOk result (λ a. a ≡ no_arguments (call_paths is_call) (param_wants params.now)) }
{
    let paths = if is_call {
        Paths::NotOfGlobals
    } else {
        Paths::Refused
    };
    Ok(no_arguments(alloc, paths, param_wants(alloc, params)?))
}

/// The arguments of an action, in a call or elsewhere: their number isn't looked at.
#[tactic(auto, using(expr_rules::proofs::Then::binds))]
pub fn arguments(
    alloc: Global,
    table: &Table,
    scope: &Scope,
    params: &ParamHeads,
    trees: &Exprs,
    is_call: bool,
) -> Result<TypedExprs, Refusal>
    ensures { Finds result (typed_arguments is_call params.now (map (part_of table.now scope.now) trees.now)) }
{
    let start = start_of(alloc, params, is_call)?;
    let arguments = crate::walk::arguments(alloc, table, scope, start, trees)?;
    Ok(arguments.items)
}
