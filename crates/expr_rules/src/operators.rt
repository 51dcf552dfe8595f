ghost use Rattle.std.specs.Prelude.{◌≡◌, ◌++◌, ◌∷◌, [], IfOk};
ghost use Rattle.type_table.specs.Found.{Finds};
ghost use Rattle.typed_program.specs.declared.expression.TypedLink.{roll-TypedLink};
ghost use Rattle.expr_rules.specs.Then.{sound};
ghost use Rattle.expr_rules.specs.Asked.{demand_of};
ghost use Rattle.expr_rules.specs.Operators.{sort_of, sort_of_expr, truth, number, alike, compared, addable, linked, truths, given_by, operated, paired, not_of, minus_of, minus_node, comparison_of, joined, with_operand, logic_node, chain_of, chain_start, link_of, with_link, level_node, links_of, links_start};

use crate::asked::Need;
use crate::placed::{Gives, Judged, stands};
use epl_tree::{Comparison, Operator};
use epl_values::{List, Shape};
use span_text::Spot;
use sqlite_items::Boxed;
use std::alloc::{AllocError, Global};
use type_table::{Fault, Refusal};
use typed_program::{TypedExpr, TypedExprs, TypedLink, TypedLinks, TypedNode};

/// What operators see of a shape.
#[derive(Clone, Copy)]
pub enum Sort {
    Integer,
    Boolean,
    Text,
    /// No scalar.
    Other,
    Unknown,
}

/// An operator of booleans with a chain of its own.
#[derive(Clone, Copy)]
pub enum Logic {
    Or,
    Xor,
    And,
}

/// A level of arithmetic.
#[derive(Clone, Copy)]
pub enum Level {
    Sum,
    Product,
}

/// A chain so far: its operands, and what they come to.
#[derive(Drop)]
pub struct Chain {
    pub first: TypedExpr,
    pub sort: Sort,
    pub operands: TypedExprs,
}

/// A chain of arithmetic so far.
#[derive(Drop)]
pub struct LinkChain {
    pub first: TypedExpr,
    pub sort: Sort,
    pub links: TypedLinks,
}

#[tactic(auto, unfolding(crate::specs::Operators::sort_of))]
pub fn sort_of(shape: &Option<Shape>) -> Sort
    ensures { result ≡ sort_of shape.now }
{
    match shape {
        None => Sort::Unknown,
        Some(Shape::Integer) => Sort::Integer,
        Some(Shape::Boolean) => Sort::Boolean,
        Some(Shape::Text) => Sort::Text,
        Some(_) => Sort::Other,
    }
}

fn truth(sort: Sort) -> Option<Sort>
    ensures { result ≡ truth sort }
{
    match sort {
        Sort::Boolean | Sort::Unknown => Some(Sort::Boolean),
        _ => None,
    }
}

fn number(sort: Sort) -> Option<Sort>
    ensures { result ≡ number sort }
{
    match sort {
        Sort::Integer | Sort::Unknown => Some(Sort::Integer),
        _ => None,
    }
}

fn truths(left: Sort, right: Sort) -> Option<Sort>
    ensures { result ≡ truths left right }
{
    match (truth(left), truth(right)) {
        (Some(sort), Some(_)) => Some(sort),
        _ => None,
    }
}

fn alike(left: Sort, right: Sort) -> Option<Sort>
    ensures { result ≡ alike left right }
{
    match (left, right) {
        (Sort::Unknown, other) => Some(other),
        (other, Sort::Unknown) => Some(other),
        (Sort::Integer, Sort::Integer) => Some(Sort::Integer),
        (Sort::Boolean, Sort::Boolean) => Some(Sort::Boolean),
        (Sort::Text, Sort::Text) => Some(Sort::Text),
        _ => None,
    }
}

fn compared(comparison: Comparison, left: Sort, right: Sort) -> Option<Sort>
    ensures { result ≡ compared comparison left right }
{
    let sort = alike(left, right)?;
    match comparison {
        Comparison::Equal | Comparison::NotEqual => match sort {
            Sort::Other => None,
            _ => Some(Sort::Boolean),
        },
        _ => match sort {
            Sort::Other | Sort::Boolean => None,
            _ => Some(Sort::Boolean),
        },
    }
}

fn addable(sort: Sort) -> Option<Sort>
    ensures { result ≡ addable (Some sort) }
{
    match sort {
        Sort::Other | Sort::Boolean => None,
        sort => Some(sort),
    }
}

fn linked(operator: Operator, left: Sort, right: Sort) -> Option<Sort>
    ensures { result ≡ linked operator left right }
{
    match operator {
        Operator::Add => addable(alike(left, right)?),
        _ => match (number(left), number(right)) {
            (Some(sort), Some(_)) => Some(sort),
            _ => None,
        },
    }
}

fn given_by(sort: Sort) -> Gives
    ensures { result ≡ given_by sort }
{
    match sort {
        Sort::Integer => Gives::Value(Shape::Integer),
        Sort::Boolean => Gives::Value(Shape::Boolean),
        Sort::Text => Gives::Value(Shape::Text),
        _ => Gives::Unknown,
    }
}

fn operated(spot: Spot, need: Need, sort: Option<Sort>, node: TypedNode) -> Result<Judged, Refusal>
    ensures { Finds result (operated spot (demand_of need.entry) sort node) }
{
    match sort {
        Some(sort) => stands(spot, need, None, None, given_by(sort), node),
        None => stands(spot, need, Some(10), None, Gives::Unknown, node),
    }
}

fn paired(spot: Spot, sort: Option<Sort>) -> Result<Sort, Refusal>
    ensures { Finds result (paired spot sort) }
{
    match sort {
        Some(sort) => Ok(sort),
        None => Err(Refusal::Fault(Fault { code: 10, spot })),
    }
}

#[tactic(auto, unfolding(crate::specs::Operators::not_of))]
pub fn not_of(alloc: Global, spot: Spot, need: Need, judged: Judged) -> Result<Judged, Refusal>
    ensures { Finds result (not_of spot (demand_of need.entry) judged) }
{
    let sort = truth(sort_of(&judged.typed.shape));
    operated(
        spot,
        need,
        sort,
        TypedNode::Not(Boxed::new(alloc, judged.typed)?),
    )
}

fn minus_node(alloc: Global, judged: Judged) -> Result<TypedNode, AllocError>
    ensures { IfOk result (λ n. n ≡ minus_node judged) }
{
    if judged.signed {
        Ok(judged.typed.node)
    } else {
        Ok(TypedNode::Minus(Boxed::new(alloc, judged.typed)?))
    }
}

#[tactic(auto, unfolding(crate::specs::Operators::minus_of))]
pub fn minus_of(alloc: Global, spot: Spot, need: Need, judged: Judged) -> Result<Judged, Refusal>
    ensures { Finds result (minus_of spot (demand_of need.entry) judged) }
{
    let sort = number(sort_of(&judged.typed.shape));
    operated(spot, need, sort, minus_node(alloc, judged)?)
}

#[tactic(auto, unfolding(crate::specs::Operators::comparison_of))]
pub fn comparison_of(
    alloc: Global,
    spot: Spot,
    need: Need,
    comparison: Comparison,
    left: Judged,
    right: Judged,
) -> Result<Judged, Refusal>
    ensures { Finds result (comparison_of spot (demand_of need.entry) comparison left right) }
{
    let sort = compared(
        comparison,
        sort_of(&left.typed.shape),
        sort_of(&right.typed.shape),
    );
    let left = Boxed::new(alloc, left.typed)?;
    let right = Boxed::new(alloc, right.typed)?;
    operated(
        spot,
        need,
        sort,
        TypedNode::Compare(left, comparison, right),
    )
}

/// A chain of its first operand.
pub fn chain_start(alloc: Global, judged: Judged) -> Chain
    ensures { result ≡ chain_start judged }
{
    Chain {
        sort: sort_of(&judged.typed.shape),
        first: judged.typed,
        operands: List::new(alloc),
    }
}

fn joined_sort(spot: Spot, sort: Sort, operand: &TypedExpr) -> Result<Sort, Refusal>
    ensures { Finds result (paired spot (truths sort (sort_of_expr operand.now))) }
{
    paired(spot, truths(sort, sort_of(&operand.shape)))
}

/// A chain with one more operand.
#[tactic(auto, using(crate::proofs::Then::binds), unfolding(crate::specs::Operators::joined))]
pub fn joined(spot: Spot, chain: Chain, judged: Judged) -> Result<Chain, Refusal>
    ensures { Finds result (joined spot chain judged) }
{
    let sort = joined_sort(spot, chain.sort, &judged.typed)?;
    with_operand(chain, sort, judged.typed)
}

fn with_operand(chain: Chain, sort: Sort, typed: TypedExpr) -> Result<Chain, Refusal>
    ensures { Finds result (with_operand chain typed sort) }
{
    let Chain {
        first,
        sort: _,
        mut operands,
    } = chain;
    operands.push(typed)?;
    Ok(Chain {
        first,
        sort,
        operands,
    })
}

fn logic_node(logic: Logic, first: Boxed<TypedExpr>, operands: TypedExprs) -> TypedNode
    ensures { result ≡ logic_node logic first operands }
{
    match logic {
        Logic::Or => TypedNode::Or(first, operands),
        Logic::Xor => TypedNode::Xor(first, operands),
        Logic::And => TypedNode::And(first, operands),
    }
}

#[tactic(auto, unfolding(crate::specs::Operators::chain_of))]
pub fn chain_of(
    alloc: Global,
    spot: Spot,
    need: Need,
    logic: Logic,
    chain: Chain,
) -> Result<Judged, Refusal>
    ensures { Finds result (chain_of spot (demand_of need.entry) logic chain) }
{
    let first = Boxed::new(alloc, chain.first)?;
    let node = logic_node(logic, first, chain.operands);
    operated(spot, need, truth(chain.sort), node)
}

/// A chain of its first operand.
pub fn links_start(alloc: Global, judged: Judged) -> LinkChain
    ensures { result ≡ links_start judged }
{
    LinkChain {
        sort: sort_of(&judged.typed.shape),
        first: judged.typed,
        links: List::new(alloc),
    }
}

fn linked_sort(
    spot: Spot,
    operator: Operator,
    sort: Sort,
    operand: &TypedExpr,
) -> Result<Sort, Refusal>
    ensures { Finds result (paired spot (linked operator sort (sort_of_expr operand.now))) }
{
    paired(spot, linked(operator, sort, sort_of(&operand.shape)))
}

/// A chain with one more operator and operand.
#[tactic(auto, using(crate::proofs::Then::binds), unfolding(crate::specs::Operators::link_of))]
pub fn link_of(
    spot: Spot,
    chain: LinkChain,
    operator: Operator,
    judged: Judged,
) -> Result<LinkChain, Refusal>
    ensures { Finds result (link_of spot chain operator judged) }
{
    let sort = linked_sort(spot, operator, chain.sort, &judged.typed)?;
    with_link(chain, sort, operator, judged.typed)
}

fn with_link(
    chain: LinkChain,
    sort: Sort,
    operator: Operator,
    typed: TypedExpr,
) -> Result<LinkChain, Refusal>
    ensures { Finds result (with_link chain operator typed sort) }
{
    let LinkChain {
        first,
        sort: _,
        mut links,
    } = chain;
    links.push(TypedLink {
        operator,
        operand: typed,
    })?;
    Ok(LinkChain { first, sort, links })
}

fn level_node(level: Level, first: Boxed<TypedExpr>, links: TypedLinks) -> TypedNode
    ensures { result ≡ level_node level first links }
{
    match level {
        Level::Sum => TypedNode::Sum(first, links),
        Level::Product => TypedNode::Product(first, links),
    }
}

#[tactic(auto, unfolding(crate::specs::Operators::links_of))]
pub fn links_of(
    alloc: Global,
    spot: Spot,
    need: Need,
    level: Level,
    chain: LinkChain,
) -> Result<Judged, Refusal>
    ensures { Finds result (links_of spot (demand_of need.entry) level chain) }
{
    let first = Boxed::new(alloc, chain.first)?;
    let node = level_node(level, first, chain.links);
    operated(spot, need, addable(chain.sort), node)
}
