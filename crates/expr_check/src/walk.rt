ghost use Rattle.std.specs.Prelude.{◌≡◌, ◌≤◌, length, map};
ghost use Rattle.type_table.specs.Found.{Finds};
ghost use Rattle.type_table.specs.Types.{type_found};
ghost use Rattle.expr_rules.specs.Then.{and_then, through};
ghost use Rattle.expr_rules.specs.Asked.{demand_of, operand, inside, plain};
ghost use Rattle.expr_rules.specs.Operators.{join_found, link_found, logic_rest, not_found, comparison_right, links_rest, minus_found};
ghost use Rattle.expr_rules.specs.Literals.{element_found, entry_found, value_found, sequence_found, dictionary_found, new_stands, key_wish};
ghost use Rattle.expr_rules.specs.Calls.{argument_found, arguments_found, plan_found, call_found, context_found};
ghost use Rattle.expr_rules.specs.Postfix.{index_found, called_found, method_found, step_found, steps_found, walked_from, demand_before, postfix_rest};
ghost use Rattle.expr_rules.specs.Places.{group_of};
ghost use Rattle.expr_check.specs.Expressions.{part_of, link_part, entry_part, step_of};

use epl_tree::{
    Comparison, Entries, Entry, Expr, ExprNode, Exprs, Link, Links, Suffix, SuffixNode, Suffixes,
    TypeExpr,
};
use epl_values::Shape;
use expr_rules::{
    Arguments, Asks, CallPlan, Chain, Elements, EntryList, Judged, Level, LinkChain, Logic,
    MethodCall, Need, Walk, argument_of, asked_by, boolean, call_stands, called_of, chain_of,
    chain_start, comparison_of, context_stands, context_start, current, demand_before, dictionary,
    element_asked, element_of, element_step, entry_of, field_found, group_of, index_asked, inside,
    integer, joined, key_asked, leads, link_of, links_of, links_start, method_stands, minus_of,
    name_of, negated, new_stands, next_asked, no_elements, no_entries, not_of, plain, plan_of,
    postfix_of, quoted, sequence, step_demand, value_asked, walk_start,
};
use span_text::Spot;
use std::alloc::Global;
use type_table::{Refusal, Scope, Table, shape_of};

/// What an operand is asked for.
fn operand<'a>() -> Need<'a>
    ensures { demand_of result ≡ operand }
{
    plain(Asks::Value)
}

/// An operand.
#[cycle(walk)]
fn operand_node(alloc: Global, table: &Table, scope: &Scope, tree: &Expr) -> Result<Judged, Refusal>
    ensures { Finds result (part_of table.now scope.now tree.now operand) }
{
    judge_node(alloc, table, scope, tree, operand())
}

/// A key that is like others.
#[cycle(walk)]
fn key_node(
    alloc: Global,
    table: &Table,
    scope: &Scope,
    tree: &Expr,
    like: &Option<Shape>,
) -> Result<Judged, Refusal>
    ensures { Finds result (part_of table.now scope.now tree.now (plain (key_wish like.now))) }
{
    judge_node(alloc, table, scope, tree, plain(key_asked(like)))
}

/// A value with so many steps behind it.
#[cycle(walk)]
fn first_node(
    alloc: Global,
    table: &Table,
    scope: &Scope,
    tree: &Expr,
    changed: bool,
    need: Need,
    count: usize,
) -> Result<Judged, Refusal>
    ensures { Finds result (part_of table.now scope.now tree.now (demand_before changed (demand_of need.entry) count)) }
{
    judge_node(
        alloc,
        table,
        scope,
        tree,
        demand_before(changed, need, count),
    )
}

#[cycle(walk)]
#[tactic(auto, using(expr_rules::proofs::Then::binds))]
fn join(
    alloc: Global,
    table: &Table,
    scope: &Scope,
    spot: Spot,
    chain: Chain,
    tree: &Expr,
) -> Result<Chain, Refusal>
    ensures { Finds result (join_found spot chain (part_of table.now scope.now tree.now)) }
{
    let judged = judge_node(alloc, table, scope, tree, operand())?;
    joined(spot, chain, judged)
}

#[cycle(walk)]
#[tactic(auto, using(expr_rules::proofs::Through::rows))]
fn join_all(
    alloc: Global,
    table: &Table,
    scope: &Scope,
    spot: Spot,
    start: Chain,
    trees: &Exprs,
) -> Result<Chain, Refusal>
    ensures { Finds result (through (join_found spot) start (map (part_of table.now scope.now) trees.now)) }
{
    let mut chain = start;
    'trees: for tree in trees.as_slice() {
        chain = join(alloc, table, scope, spot, chain, tree)?;
    }
    Ok(chain)
}

#[cycle(walk)]
#[tactic(auto, using(expr_rules::proofs::Then::binds))]
fn link(
    alloc: Global,
    table: &Table,
    scope: &Scope,
    spot: Spot,
    chain: LinkChain,
    tree: &Link,
) -> Result<LinkChain, Refusal>
    ensures { Finds result (link_found spot chain (link_part table.now scope.now tree.now)) }
{
    let judged = operand_node(alloc, table, scope, &tree.operand)?;
    link_of(spot, chain, tree.operator, judged)
}

#[cycle(walk)]
#[tactic(auto, using(expr_rules::proofs::Through::rows))]
fn link_all(
    alloc: Global,
    table: &Table,
    scope: &Scope,
    spot: Spot,
    start: LinkChain,
    trees: &Links,
) -> Result<LinkChain, Refusal>
    ensures { Finds result (through (link_found spot) start (map (link_part table.now scope.now) trees.now)) }
{
    let mut chain = start;
    'trees: for tree in trees.as_slice() {
        chain = link(alloc, table, scope, spot, chain, tree)?;
    }
    Ok(chain)
}

#[cycle(walk)]
#[tactic(auto, using(expr_rules::proofs::Then::binds))]
fn element(
    alloc: Global,
    table: &Table,
    scope: &Scope,
    elements: Elements,
    tree: &Expr,
) -> Result<Elements, Refusal>
    ensures { Finds result (element_found elements (part_of table.now scope.now tree.now)) }
{
    let judged = judge_node(alloc, table, scope, tree, plain(element_asked(&elements)))?;
    element_of(alloc, elements, judged)
}

#[cycle(walk)]
#[tactic(auto, using(expr_rules::proofs::Through::rows))]
fn elements(
    alloc: Global,
    table: &Table,
    scope: &Scope,
    start: Elements,
    trees: &Exprs,
) -> Result<Elements, Refusal>
    ensures { Finds result (through element_found start (map (part_of table.now scope.now) trees.now)) }
{
    let mut elements = start;
    'trees: for tree in trees.as_slice() {
        elements = element(alloc, table, scope, elements, tree)?;
    }
    Ok(elements)
}

#[cycle(walk)]
#[tactic(auto, using(expr_rules::proofs::Then::binds))]
fn entry(
    alloc: Global,
    table: &Table,
    scope: &Scope,
    entries: EntryList,
    tree: &Entry,
) -> Result<EntryList, Refusal>
    ensures { Finds result (entry_found entries (entry_part table.now scope.now tree.now)) }
{
    let key = key_node(alloc, table, scope, &tree.key, &entries.key)?;
    value(alloc, table, scope, entries, key, &tree.value)
}

#[cycle(walk)]
#[tactic(auto, using(expr_rules::proofs::Then::binds), unfolding(expr_rules::specs::Literals::value_found))]
fn value(
    alloc: Global,
    table: &Table,
    scope: &Scope,
    entries: EntryList,
    key: Judged,
    tree: &Expr,
) -> Result<EntryList, Refusal>
    ensures { Finds result (value_found entries (part_of table.now scope.now tree.now) key) }
{
    let judged = judge_node(alloc, table, scope, tree, plain(value_asked(&entries)))?;
    entry_of(alloc, entries, key, judged)
}

#[cycle(walk)]
#[tactic(auto, using(expr_rules::proofs::Through::rows))]
fn entries(
    alloc: Global,
    table: &Table,
    scope: &Scope,
    start: EntryList,
    trees: &Entries,
) -> Result<EntryList, Refusal>
    ensures { Finds result (through entry_found start (map (entry_part table.now scope.now) trees.now)) }
{
    let mut entries = start;
    'trees: for tree in trees.as_slice() {
        entries = entry(alloc, table, scope, entries, tree)?;
    }
    Ok(entries)
}

#[cycle(walk)]
#[tactic(auto, using(expr_rules::proofs::Then::binds))]
fn argument(
    alloc: Global,
    table: &Table,
    scope: &Scope,
    arguments: Arguments,
    tree: &Expr,
) -> Result<Arguments, Refusal>
    ensures { Finds result (argument_found arguments (part_of table.now scope.now tree.now)) }
{
    let judged = judge_node(
        alloc,
        table,
        scope,
        tree,
        asked_by(next_asked(&arguments), arguments.paths),
    )?;
    argument_of(arguments, judged)
}

/// The arguments of a call, behind those that stand.
#[cycle(walk)]
#[tactic(auto, using(expr_rules::proofs::Through::rows))]
pub fn arguments(
    alloc: Global,
    table: &Table,
    scope: &Scope,
    start: Arguments,
    trees: &Exprs,
) -> Result<Arguments, Refusal>
    ensures { Finds result (arguments_found start (map (part_of table.now scope.now) trees.now)) }
{
    let mut arguments = start;
    'trees: for tree in trees.as_slice() {
        arguments = argument(alloc, table, scope, arguments, tree)?;
    }
    Ok(arguments)
}

#[cycle(walk)]
#[tactic(auto, using(expr_rules::proofs::Then::binds))]
fn index_step(
    alloc: Global,
    table: &Table,
    scope: &Scope,
    own: Spot,
    spot: Spot,
    need: Need,
    walk: Walk,
    tree: &Expr,
) -> Result<Walk, Refusal>
    ensures { Finds result (index_found (part_of table.now scope.now tree.now) own spot (demand_of need.entry) walk) }
{
    let judged = judge_node(alloc, table, scope, tree, plain(index_asked(&walk.shape)))?;
    element_step(alloc, own, spot, need, walk, judged)
}

#[cycle(walk)]
#[tactic(auto, using(expr_rules::proofs::Then::binds))]
fn called_step(
    alloc: Global,
    table: &Table,
    scope: &Scope,
    call: MethodCall,
    trees: &Exprs,
    spot: Spot,
    need: Need,
    walk: Walk,
) -> Result<Walk, Refusal>
    ensures { Finds result (called_found call (map (part_of table.now scope.now) trees.now) spot (demand_of need.entry) walk) }
{
    let MethodCall { called, start } = call;
    let arguments = arguments(alloc, table, scope, start, trees)?;
    method_stands(alloc, spot, need, walk, called, arguments)
}

#[cycle(walk)]
fn method_step(
    alloc: Global,
    table: &Table,
    scope: &Scope,
    name: &str,
    trees: &Exprs,
    spot: Spot,
    need: Need,
    walk: Walk,
) -> Result<Walk, Refusal>
    ensures { Finds result (method_found name.now (map (part_of table.now scope.now) trees.now) spot (demand_of need.entry) walk) }
{
    let call = called_of(alloc, &walk.shape, name)?;
    called_step(alloc, table, scope, call, trees, spot, need, walk)
}

#[cycle(walk)]
fn step(
    alloc: Global,
    table: &Table,
    scope: &Scope,
    spot: Spot,
    need: Need,
    walk: Walk,
    suffix: &Suffix,
) -> Result<Walk, Refusal>
    ensures { Finds result ((step_of table.now scope.now suffix.now).found spot (demand_of need.entry) walk) }
{
    match &suffix.node {
        SuffixNode::Field(name) => field_found(alloc, table, name.as_str(), spot, need, walk),
        SuffixNode::Index(index) => {
            index_step(
                alloc,
                table,
                scope,
                suffix.spot,
                spot,
                need,
                walk,
                index.get(),
            )
        }
        SuffixNode::Method(name, trees) => {
            method_step(alloc, table, scope, name.as_str(), trees, spot, need, walk)
        }
    }
}

#[cycle(walk)]
fn next_step(
    alloc: Global,
    table: &Table,
    scope: &Scope,
    spot: Spot,
    changed: bool,
    need: Need,
    count: usize,
    walk: Walk,
    suffix: &Suffix,
) -> Result<Walk, Refusal>
    ensures { Finds result (step_found spot changed (demand_of need.entry) count walk (step_of table.now scope.now suffix.now)) }
{
    let next = step_demand(changed, need, count, &walk);
    step(alloc, table, scope, spot, next, walk, suffix)
}

/// The steps behind a value, which are so many.
#[cycle(walk)]
#[tactic(auto, using(expr_rules::proofs::Through::rows))]
fn each_step(
    alloc: Global,
    table: &Table,
    scope: &Scope,
    spot: Spot,
    changed: bool,
    need: Need,
    count: usize,
    start: Walk,
    suffixes: &Suffixes,
) -> Result<Walk, Refusal>
    ensures { Finds result (through (step_found spot changed (demand_of need.entry) count) start (map (step_of table.now scope.now) suffixes.now)) }
{
    let mut walk = start;
    'steps: for suffix in suffixes.as_slice() {
        walk = next_step(
            alloc, table, scope, spot, changed, need, count, walk, suffix,
        )?;
    }
    Ok(walk)
}

#[cycle(walk)]
#[tactic(auto, using(crate::proofs::LeadingSteps::steps_count))]
fn steps(
    alloc: Global,
    table: &Table,
    scope: &Scope,
    spot: Spot,
    changed: bool,
    need: Need,
    start: Walk,
    suffixes: &Suffixes,
) -> Result<Walk, Refusal>
    ensures { Finds result (steps_found spot changed (demand_of need.entry) start (map (step_of table.now scope.now) suffixes.now)) }
{
    each_step(
        alloc,
        table,
        scope,
        spot,
        changed,
        need,
        suffixes.len(),
        start,
        suffixes,
    )
}

/// The steps behind a value, from its first one on.
#[cycle(walk)]
#[tactic(auto, using(expr_rules::proofs::Then::binds), unfolding(expr_rules::specs::Postfix::walked_from))]
pub fn walked_from(
    alloc: Global,
    table: &Table,
    scope: &Scope,
    spot: Spot,
    changed: bool,
    need: Need,
    suffixes: &Suffixes,
    judged: Judged,
) -> Result<Walk, Refusal>
    ensures { Finds result (walked_from spot changed (demand_of need.entry) (map (step_of table.now scope.now) suffixes.now) judged) }
{
    let start = walk_start(alloc, judged)?;
    steps(alloc, table, scope, spot, changed, need, start, suffixes)
}

#[cycle(walk)]
#[tactic(auto, using(expr_rules::proofs::Then::binds), unfolding(expr_rules::specs::Operators::logic_rest))]
fn logic_rest(
    alloc: Global,
    table: &Table,
    scope: &Scope,
    logic: Logic,
    rest: &Exprs,
    spot: Spot,
    need: Need,
    first: Judged,
) -> Result<Judged, Refusal>
    ensures { Finds result (logic_rest logic (map (part_of table.now scope.now) rest.now) spot (demand_of need.entry) first) }
{
    let chain = join_all(alloc, table, scope, spot, chain_start(alloc, first), rest)?;
    chain_of(alloc, spot, need, logic, chain)
}

#[cycle(walk)]
#[tactic(auto, using(expr_rules::proofs::Then::binds))]
fn not(
    alloc: Global,
    table: &Table,
    scope: &Scope,
    tree: &Expr,
    spot: Spot,
    need: Need,
) -> Result<Judged, Refusal>
    ensures { Finds result (not_found (part_of table.now scope.now tree.now) spot (demand_of need.entry)) }
{
    let judged = judge_node(alloc, table, scope, tree, operand())?;
    not_of(alloc, spot, need, judged)
}

#[cycle(walk)]
#[tactic(auto, using(expr_rules::proofs::Then::binds), unfolding(expr_rules::specs::Operators::comparison_right))]
fn comparison_right(
    alloc: Global,
    table: &Table,
    scope: &Scope,
    comparison: Comparison,
    right: &Expr,
    spot: Spot,
    need: Need,
    left: Judged,
) -> Result<Judged, Refusal>
    ensures { Finds result (comparison_right spot (demand_of need.entry) comparison (part_of table.now scope.now right.now) left) }
{
    let right = judge_node(alloc, table, scope, right, operand())?;
    comparison_of(alloc, spot, need, comparison, left, right)
}

#[cycle(walk)]
#[tactic(auto, using(expr_rules::proofs::Then::binds), unfolding(expr_rules::specs::Operators::links_rest))]
fn links_rest(
    alloc: Global,
    table: &Table,
    scope: &Scope,
    level: Level,
    links: &Links,
    spot: Spot,
    need: Need,
    first: Judged,
) -> Result<Judged, Refusal>
    ensures { Finds result (links_rest level (map (link_part table.now scope.now) links.now) spot (demand_of need.entry) first) }
{
    let chain = link_all(alloc, table, scope, spot, links_start(alloc, first), links)?;
    links_of(alloc, spot, need, level, chain)
}

#[cycle(walk)]
#[tactic(auto, using(expr_rules::proofs::Then::binds))]
fn minus(
    alloc: Global,
    table: &Table,
    scope: &Scope,
    tree: &Expr,
    spot: Spot,
    need: Need,
) -> Result<Judged, Refusal>
    ensures { Finds result (minus_found (part_of table.now scope.now tree.now) spot (demand_of need.entry)) }
{
    let judged = judge_node(alloc, table, scope, tree, negated())?;
    minus_of(alloc, spot, need, judged)
}

#[cycle(walk)]
#[tactic(auto, using(expr_rules::proofs::Then::binds), unfolding(expr_rules::specs::Postfix::postfix_rest))]
fn postfix_rest(
    alloc: Global,
    table: &Table,
    scope: &Scope,
    changed: bool,
    suffixes: &Suffixes,
    spot: Spot,
    need: Need,
    judged: Judged,
) -> Result<Judged, Refusal>
    ensures { Finds result (postfix_rest changed (map (step_of table.now scope.now) suffixes.now) spot (demand_of need.entry) judged) }
{
    let walk = walked_from(alloc, table, scope, spot, changed, need, suffixes, judged)?;
    postfix_of(alloc, walk)
}

#[cycle(walk)]
#[tactic(auto, using(expr_rules::proofs::Then::binds))]
fn planned_call(
    alloc: Global,
    table: &Table,
    scope: &Scope,
    plan: CallPlan,
    trees: &Exprs,
    spot: Spot,
    need: Need,
) -> Result<Judged, Refusal>
    ensures { Finds result (plan_found plan (map (part_of table.now scope.now) trees.now) spot (demand_of need.entry)) }
{
    let CallPlan { callee, start } = plan;
    let arguments = arguments(alloc, table, scope, start, trees)?;
    call_stands(spot, need, callee, arguments)
}

#[cycle(walk)]
fn call(
    alloc: Global,
    table: &Table,
    scope: &Scope,
    name: &str,
    trees: &Exprs,
    spot: Spot,
    need: Need,
) -> Result<Judged, Refusal>
    ensures { Finds result (call_found table.now scope.now name.now (map (part_of table.now scope.now) trees.now) spot (demand_of need.entry)) }
{
    let plan = plan_of(alloc, table, scope, name)?;
    planned_call(alloc, table, scope, plan, trees, spot, need)
}

#[cycle(walk)]
#[tactic(auto, using(expr_rules::proofs::Then::binds))]
fn sequence_literal(
    alloc: Global,
    table: &Table,
    scope: &Scope,
    trees: &Exprs,
    spot: Spot,
    need: Need,
) -> Result<Judged, Refusal>
    ensures { Finds result (sequence_found (map (part_of table.now scope.now) trees.now) spot (demand_of need.entry)) }
{
    let found = elements(alloc, table, scope, no_elements(alloc), trees)?;
    sequence(alloc, spot, need, found)
}

#[cycle(walk)]
#[tactic(auto, using(expr_rules::proofs::Then::binds))]
fn dictionary_literal(
    alloc: Global,
    table: &Table,
    scope: &Scope,
    trees: &Entries,
    spot: Spot,
    need: Need,
) -> Result<Judged, Refusal>
    ensures { Finds result (dictionary_found (map (entry_part table.now scope.now) trees.now) spot (demand_of need.entry)) }
{
    let found = entries(alloc, table, scope, no_entries(alloc), trees)?;
    dictionary(alloc, spot, need, found)
}

#[tactic(auto, using(expr_rules::proofs::Then::binds))]
fn new_value(
    alloc: Global,
    table: &Table,
    written: &TypeExpr,
    spot: Spot,
    need: Need,
) -> Result<Judged, Refusal>
    ensures { Finds result (and_then (type_found table.now written.now) (new_stands spot (demand_of need.entry))) }
{
    let shape = shape_of(alloc, table, written)?;
    new_stands(spot, need, shape)
}

#[cycle(walk)]
#[tactic(auto, using(expr_rules::proofs::Then::binds))]
fn context(
    alloc: Global,
    table: &Table,
    scope: &Scope,
    trees: &Exprs,
    spot: Spot,
    need: Need,
) -> Result<Judged, Refusal>
    ensures { Finds result (context_found (map (part_of table.now scope.now) trees.now) spot (demand_of need.entry)) }
{
    let start = context_start(alloc)?;
    let arguments = arguments(alloc, table, scope, start, trees)?;
    context_stands(spot, need, arguments)
}

#[cycle(walk)]
#[tactic(auto, using(expr_rules::proofs::Then::binds))]
fn group(
    alloc: Global,
    table: &Table,
    scope: &Scope,
    tree: &Expr,
    spot: Spot,
    need: Need,
) -> Result<Judged, Refusal>
    ensures { Finds result (and_then (part_of table.now scope.now tree.now (inside (demand_of need.entry))) (group_of spot (demand_of need.entry))) }
{
    let judged = judge_node(alloc, table, scope, tree, inside(need))?;
    group_of(spot, need, judged)
}

/// A node inside an expression.
#[cycle(walk)]
pub fn judge_node(
    alloc: Global,
    table: &Table,
    scope: &Scope,
    tree: &Expr,
    need: Need,
) -> Result<Judged, Refusal>
    ensures { Finds result (part_of table.now scope.now tree.now (demand_of need.entry)) }
{
    let spot = tree.spot;
    match &tree.node {
        ExprNode::Or(first, rest) => {
            let judged = operand_node(alloc, table, scope, first.get())?;
            logic_rest(alloc, table, scope, Logic::Or, rest, spot, need, judged)
        }
        ExprNode::Xor(first, rest) => {
            let judged = operand_node(alloc, table, scope, first.get())?;
            logic_rest(alloc, table, scope, Logic::Xor, rest, spot, need, judged)
        }
        ExprNode::And(first, rest) => {
            let judged = operand_node(alloc, table, scope, first.get())?;
            logic_rest(alloc, table, scope, Logic::And, rest, spot, need, judged)
        }
        ExprNode::Not(inner) => not(alloc, table, scope, inner.get(), spot, need),
        ExprNode::Compare(left, comparison, right) => {
            let judged = operand_node(alloc, table, scope, left.get())?;
            comparison_right(
                alloc,
                table,
                scope,
                *comparison,
                right.get(),
                spot,
                need,
                judged,
            )
        }
        ExprNode::Sum(first, links) => {
            let judged = operand_node(alloc, table, scope, first.get())?;
            links_rest(alloc, table, scope, Level::Sum, links, spot, need, judged)
        }
        ExprNode::Product(first, links) => {
            let judged = operand_node(alloc, table, scope, first.get())?;
            links_rest(
                alloc,
                table,
                scope,
                Level::Product,
                links,
                spot,
                need,
                judged,
            )
        }
        ExprNode::Minus(inner) => minus(alloc, table, scope, inner.get(), spot, need),
        ExprNode::Postfix(first, suffixes) => {
            let changed = leads(need.changed, suffixes);
            let judged = first_node(
                alloc,
                table,
                scope,
                first.get(),
                changed,
                need,
                suffixes.len(),
            )?;
            postfix_rest(alloc, table, scope, changed, suffixes, spot, need, judged)
        }
        ExprNode::Integer(digits) => integer(spot, need, digits.as_str()),
        ExprNode::Quoted(text) => quoted(alloc, spot, need, text.as_str()),
        ExprNode::Boolean(value) => boolean(spot, need, *value),
        ExprNode::Name(name) => name_of(alloc, scope, spot, need, name.as_str()),
        ExprNode::Call(name, trees) => call(alloc, table, scope, name.as_str(), trees, spot, need),
        ExprNode::Sequence(trees) => sequence_literal(alloc, table, scope, trees, spot, need),
        ExprNode::Dictionary(trees) => dictionary_literal(alloc, table, scope, trees, spot, need),
        ExprNode::New(written) => new_value(alloc, table, written, spot, need),
        ExprNode::Context(trees) => context(alloc, table, scope, trees, spot, need),
        ExprNode::ContextCurrent => current(spot, need),
        ExprNode::Group(inner) => group(alloc, table, scope, inner.get(), spot, need),
    }
}
