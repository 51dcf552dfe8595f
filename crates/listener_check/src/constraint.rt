ghost use Rattle.std.specs.Prelude.{◌≡◌, ◌||◌, slice_get};
ghost use Rattle.listener_check.specs.Constraints.{none_done, is_named, is_any, orders, is_ordered, number_of, missing_code, is_boolean, constrains, is_repeated, is_misordered, is_misused, is_unfit, is_refused, place_named, compares_read, lies_read, asked_read, placed_read, found_read, constraint_read, constraints_read};
ghost use Rattle.typed_program.specs.Shapes.{is_scalar};
ghost use Rattle.listener_check.specs.Went.{Goes};

use crate::reader::Reader;
use crate::sofar::Sofar;
use epl_tree::{Comparison, Constraint, ConstraintNode, Constraints, Expr, Range};
use epl_values::{Fields, List, Shape, Texts};
use std::alloc::Global;
use type_table::{Fault, Refusal, short};
use typed_program::{
    Constraint as Typed, ConstraintNode as TypedNode, Constraints as Typeds, Range as TypedRange,
    RangeEnd as TypedEnd,
};

/// Constraints that are done, and whether one of them is named.
#[derive(Drop)]
pub struct Done {
    pub constraints: Typeds,
    pub named: bool,
}

fn none_done(alloc: Global) -> Done
    ensures { result ≡ none_done }
{
    Done {
        constraints: List::new(alloc),
        named: false,
    }
}

fn is_named(node: &ConstraintNode) -> bool
    ensures { result ≡ is_named node.now }
{
    match node {
        ConstraintNode::NamedCompares(..) => true,
        ConstraintNode::NamedLies(..) => true,
        _ => false,
    }
}

fn is_named_by(named: bool, node: &ConstraintNode) -> bool
    ensures { result ≡ (named || is_named node.now) }
{
    named || is_named(node)
}

fn is_any(node: &ConstraintNode) -> bool
    ensures { result ≡ is_any node.now }
{
    match node {
        ConstraintNode::Any => true,
        _ => false,
    }
}

fn orders(comparison: Comparison) -> bool
    ensures { result ≡ orders comparison }
{
    match comparison {
        Comparison::Equal => false,
        _ => true,
    }
}

fn is_ordered(node: &ConstraintNode) -> bool
    ensures { result ≡ is_ordered node.now }
{
    match node {
        ConstraintNode::Compares(comparison, _) => orders(*comparison),
        ConstraintNode::NamedCompares(_, comparison, _) => orders(*comparison),
        ConstraintNode::Lies(_) => true,
        ConstraintNode::NamedLies(..) => true,
        _ => false,
    }
}

fn place_named(fields: &Fields, name: &str) -> Option<usize>
    ensures { result ≡ place_named fields.now name.now }
{
    fields
        .as_slice()
        .iter()
        .position(|f| f.name.as_str() == name)
}

fn number_of(fields: &Fields, before: usize, node: &ConstraintNode) -> Option<usize>
    ensures { result ≡ number_of fields.now before node.now }
{
    match node {
        ConstraintNode::NamedCompares(name, _, _) => place_named(fields, name.as_str()),
        ConstraintNode::NamedLies(name, _) => place_named(fields, name.as_str()),
        _ => Some(before),
    }
}

fn missing_code(node: &ConstraintNode) -> u8
    ensures { result ≡ missing_code node.now }
{
    if is_named(node) { 7 } else { 17 }
}

#[tactic(auto, unfolding(crate::specs::Constraints::is_boolean))]
fn is_boolean(shape: &Shape) -> bool
    ensures { result ≡ is_boolean shape.now }
{
    match shape {
        Shape::Boolean => true,
        _ => false,
    }
}

#[tactic(auto, unfolding(typed_program::specs::Shapes::is_scalar))]
fn is_scalar(shape: &Shape) -> bool
    ensures { result ≡ is_scalar shape.now }
{
    match shape {
        Shape::Integer => true,
        Shape::Boolean => true,
        Shape::Text => true,
        _ => false,
    }
}

fn constrains(number: u16, constraint: &Typed) -> bool
    ensures { result ≡ constrains number constraint.now }
{
    let asks_nothing = match &constraint.node {
        TypedNode::Any => true,
        _ => false,
    };
    constraint.field == number && !asks_nothing
}

fn is_repeated(number: usize, done: &Typeds) -> bool
    ensures { result ≡ is_repeated number done.now }
{
    let number = short(number);
    done.as_slice().iter().any(|c| constrains(number, c))
}

fn is_misordered(shape: &Shape, node: &ConstraintNode) -> bool
    ensures { result ≡ is_misordered shape.now node.now }
{
    is_ordered(node) && is_boolean(shape)
}

fn is_misused(number: usize, shape: &Shape, done: &Typeds, node: &ConstraintNode) -> bool
    ensures { result ≡ is_misused number shape.now done.now node.now }
{
    is_repeated(number, done) || is_misordered(shape, node)
}

fn is_unfit(number: usize, shape: &Shape, done: &Typeds, node: &ConstraintNode) -> bool
    ensures { result ≡ is_unfit number shape.now done.now node.now }
{
    !is_any(node) && (!is_scalar(shape) || is_misused(number, shape, done, node))
}

fn is_refused(
    number: usize,
    shape: &Shape,
    done: &Typeds,
    named: bool,
    node: &ConstraintNode,
) -> bool
    ensures { result ≡ is_refused number shape.now done.now named node.now }
{
    (named && !is_named(node)) || is_unfit(number, shape, done, node)
}

impl Reader<'_> {
    #[tactic(auto, using(crate::proofs::Going::going), unfolding(crate::specs::Constraints::compares_read))]
    fn compares(
        &self,
        sofar: &mut Sofar,
        left: &Texts,
        shape: &Shape,
        comparison: Comparison,
        tree: &Expr,
    ) -> Result<TypedNode, Refusal>
        ensures { Goes result (compares_read self.now.table.now self.now.scope.now self.now.inner.now left.now shape.now comparison tree.now sofar.old) sofar.new }
    {
        let operand = self.operand(sofar, left, shape, tree)?;
        Ok(TypedNode::Compares(comparison, operand))
    }

    #[tactic(auto, using(crate::proofs::Going::going), unfolding(crate::specs::Constraints::lies_read))]
    fn lies(
        &self,
        sofar: &mut Sofar,
        left: &Texts,
        shape: &Shape,
        range: &Range,
    ) -> Result<TypedNode, Refusal>
        ensures { Goes result (lies_read self.now.table.now self.now.scope.now self.now.inner.now left.now shape.now range.now sofar.old) sofar.new }
    {
        let low = self.operand(sofar, left, shape, &range.low.bound)?;
        let high = self.operand(sofar, left, shape, &range.high.bound)?;
        Ok(TypedNode::Lies(TypedRange {
            low: TypedEnd {
                closed: range.low.closed,
                bound: low,
            },
            high: TypedEnd {
                closed: range.high.closed,
                bound: high,
            },
        }))
    }

    #[tactic(auto, unfolding(crate::specs::Constraints::asked_read))]
    fn asked(
        &self,
        sofar: &mut Sofar,
        left: &Texts,
        shape: &Shape,
        node: &ConstraintNode,
    ) -> Result<TypedNode, Refusal>
        ensures { Goes result (asked_read self.now.table.now self.now.scope.now self.now.inner.now left.now shape.now node.now sofar.old) sofar.new }
    {
        match node {
            ConstraintNode::Any => Ok(TypedNode::Any),
            ConstraintNode::Equals(tree) => {
                self.compares(sofar, left, shape, Comparison::Equal, tree)
            }
            ConstraintNode::Compares(comparison, tree) => {
                self.compares(sofar, left, shape, *comparison, tree)
            }
            ConstraintNode::Lies(range) => self.lies(sofar, left, shape, range),
            ConstraintNode::NamedCompares(_, comparison, tree) => {
                self.compares(sofar, left, shape, *comparison, tree)
            }
            ConstraintNode::NamedLies(_, range) => self.lies(sofar, left, shape, range),
        }
    }

    #[tactic(auto, using(crate::proofs::Going::going), unfolding(crate::specs::Constraints::placed_read))]
    fn placed_constraint(
        &self,
        sofar: &mut Sofar,
        left: &Texts,
        number: usize,
        shape: &Shape,
        done: &Typeds,
        named: bool,
        constraint: &Constraint,
    ) -> Result<Typed, Refusal>
        ensures { Goes result (placed_read self.now.table.now self.now.scope.now self.now.inner.now left.now number shape.now done.now named constraint.now sofar.old) sofar.new }
    {
        let node = &constraint.node;
        if is_refused(number, shape, done, named, node) {
            return Err(Refusal::Fault(Fault {
                code: 17,
                spot: constraint.spot,
            }));
        }
        let node = self.asked(sofar, left, shape, node)?;
        Ok(Typed {
            field: short(number),
            node,
        })
    }

    #[tactic(auto, unfolding(crate::specs::Went::behind))]
    fn found_constraint(
        &self,
        sofar: &mut Sofar,
        left: &Texts,
        fields: &Fields,
        number: usize,
        done: &Typeds,
        named: bool,
        constraint: &Constraint,
    ) -> Result<Typed, Refusal>
        ensures { Goes result (found_read self.now.table.now self.now.scope.now self.now.inner.now left.now number (slice_get fields.now number) done.now named constraint.now sofar.old) sofar.new }
    {
        match fields.as_slice().get(number) {
            Some(field) => {
                self.placed_constraint(sofar, left, number, &field.shape, done, named, constraint)
            }
            None => Err(Refusal::Fault(Fault {
                code: missing_code(&constraint.node),
                spot: constraint.spot,
            })),
        }
    }

    #[tactic(auto, using(crate::proofs::Going::going))]
    fn constraint(
        &self,
        sofar: &mut Sofar,
        left: &Texts,
        fields: &Fields,
        done: &Typeds,
        named: bool,
        constraint: &Constraint,
    ) -> Result<Typed, Refusal>
        ensures { Goes result (constraint_read self.now.table.now self.now.scope.now self.now.inner.now left.now fields.now done.now named constraint.now sofar.old) sofar.new }
    {
        match number_of(fields, done.len(), &constraint.node) {
            Some(number) => {
                self.found_constraint(sofar, left, fields, number, done, named, constraint)
            }
            None => Err(Refusal::Fault(Fault {
                code: missing_code(&constraint.node),
                spot: constraint.spot,
            })),
        }
    }

    /// The constraints of a template of an event type with these fields.
    pub fn constraints(
        &self,
        sofar: &mut Sofar,
        left: &Texts,
        fields: &Fields,
        constraints: &Constraints,
    ) -> Result<Done, Refusal>
        ensures { Goes result (constraints_read self.now.table.now self.now.scope.now self.now.inner.now left.now fields.now constraints.now sofar.old) sofar.new }
    {
        let mut done = none_done(self.alloc);
        for constraint in constraints.as_slice() {
            let typed = self.constraint(
                sofar,
                left,
                fields,
                &done.constraints,
                done.named,
                constraint,
            )?;
            done.constraints.push(typed)?;
            done.named = is_named_by(done.named, &constraint.node);
        }
        Ok(done)
    }
}
