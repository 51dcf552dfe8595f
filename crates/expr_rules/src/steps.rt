ghost use Rattle.std.specs.Prelude.{◌≡◌, ◌+◌, ◌-◌, map, length, slice_get, IfOk};
ghost use Rattle.type_table.specs.Found.{Finds};
ghost use Rattle.expr_rules.specs.Then.{sound};
ghost use Rattle.expr_rules.specs.Calls.{fields_at};
ghost use Rattle.expr_rules.specs.Asked.{demand_of, wish_of};
ghost use Rattle.expr_rules.specs.Postfix.{kind_of, leads, demand_before, walk_start, walked, reached, missing_field, place_of, field_named, field_of, field_found, index_wish, unknown_element, element_of_shape, element_reach, is_far, nearer, near, element_stands, element_step, method_stands, postfix_of};

use crate::asked::{Asks, Need, receiver};
use crate::calls::Arguments;
use crate::methods::{Called, Reach, is_change, method_reach};
use crate::placed::{Gives, Judged, Root, placed};
use epl_tree::{Suffix, SuffixNode, Suffixes};
use epl_values::{Fields, List, Shape, copy_shape};
use span_text::Spot;
use sqlite_items::Boxed;
use std::alloc::{AllocError, Global};
use type_table::{Fault, Refusal, Table, copy_known, short};
use typed_program::{TypedExpr, TypedNode, TypedSuffix, TypedSuffixNode, TypedSuffixes};

/// What a step is for the limit on a place that is changed.
#[derive(Clone, Copy)]
pub enum StepKind {
    /// A field or an element.
    Inner,
    /// A method that changes its object.
    Change,
    /// Another method.
    Other,
}

/// A value and steps so far: the shape of what is reached, and the root of the path.
#[derive(Drop)]
pub struct Walk {
    pub first: TypedExpr,
    pub suffixes: TypedSuffixes,
    pub shape: Option<Shape>,
    pub root: Option<Root>,
}

fn kind_of(suffix: &Suffix) -> StepKind
    ensures { result ≡ kind_of suffix.now }
{
    match &suffix.node {
        SuffixNode::Field(_) => StepKind::Inner,
        SuffixNode::Index(_) => StepKind::Inner,
        SuffixNode::Method(name, _) => {
            if is_change(name.as_str()) {
                StepKind::Change
            } else {
                StepKind::Other
            }
        }
    }
}

/// Whether steps lead, by fields and elements alone, to what is changed.
pub fn leads(changed: bool, steps: &Suffixes) -> bool
    ensures { result ≡ leads changed (map kind_of steps.now) }
{
    'steps: for step in steps.as_slice() {
        match kind_of(step) {
            StepKind::Inner => {}
            StepKind::Change => return true,
            StepKind::Other => return false,
        }
    }
    changed
}

/// What is asked of a value with so many steps behind it.
pub fn demand_before<'a>(changed: bool, need: Need<'a>, left: usize) -> Need<'a>
    ensures { demand_of result ≡ demand_before changed (demand_of need.entry) left }
{
    if left == 0 {
        Need {
            asks: need.asks,
            paths: need.paths,
            changed,
            signed: false,
            assigned: need.assigned,
            astray: need.astray,
        }
    } else {
        receiver(changed)
    }
}

/// What is asked of the next step of so many.
pub fn step_demand<'a>(changed: bool, need: Need<'a>, count: usize, walk: &Walk) -> Need<'a>
    ensures { demand_of result ≡ demand_before changed (demand_of need.entry) (count - (length walk.now.suffixes + 1)) }
{
    demand_before(changed, need, count.saturating_sub(walk.suffixes.len() + 1))
}

/// A value with no steps yet.
pub fn walk_start(alloc: Global, judged: Judged) -> Result<Walk, Refusal>
    ensures { Finds result (sound (walk_start judged)) }
{
    let shape = copy_known(alloc, &judged.typed.shape)?;
    Ok(Walk {
        first: judged.typed,
        suffixes: List::new(alloc),
        shape,
        root: judged.root,
    })
}

fn walked(
    alloc: Global,
    walk: Walk,
    root: Option<Root>,
    node: TypedSuffixNode,
    shape: Option<Shape>,
) -> Result<Walk, Refusal>
    ensures { Finds result (walked walk root node shape) }
{
    let Walk {
        first,
        mut suffixes,
        shape: _,
        root: _,
    } = walk;
    let copied = copy_known(alloc, &shape)?;
    suffixes.push(TypedSuffix {
        shape: copied,
        node,
    })?;
    Ok(Walk {
        first,
        suffixes,
        shape,
        root,
    })
}

#[tactic(auto, using(crate::proofs::Then::binds))]
fn reached(
    alloc: Global,
    spot: Spot,
    need: Need,
    root: Option<Root>,
    walk: Walk,
    reach: Reach,
) -> Result<Walk, Refusal>
    ensures { Finds result (reached spot (demand_of need.entry) root walk reach) }
{
    let Reach { own, given, node } = reach;
    let shape = placed(spot, need, own, root, given)?;
    walked(alloc, walk, root, node, shape)
}

fn missing_field(own: Option<u8>) -> Reach
    ensures { result ≡ missing_field own }
{
    Reach {
        own,
        given: Gives::Unknown,
        node: TypedSuffixNode::Field(0),
    }
}

fn place_of(fields: &Fields, name: &str) -> Option<usize>
    ensures { result ≡ place_of fields.now name.now }
{
    fields
        .as_slice()
        .iter()
        .position(|f| f.name.as_str() == name)
}

fn field_named(alloc: Global, fields: &Fields, name: &str) -> Result<Reach, AllocError>
    ensures { IfOk result (λ r. r ≡ field_named fields.now name.now) }
{
    match place_of(fields, name) {
        None => Ok(missing_field(Some(7))),
        Some(place) => match fields.as_slice().get(place) {
            None => Ok(missing_field(Some(7))),
            Some(field) => Ok(Reach {
                own: None,
                given: Gives::Value(copy_shape(alloc, &field.shape)?),
                node: TypedSuffixNode::Field(short(place)),
            }),
        },
    }
}

fn field_in(alloc: Global, table: &Table, number: u16, name: &str) -> Result<Reach, AllocError>
    ensures { IfOk result (λ r. r ≡ field_named (fields_at (slice_get table.now.types number)) name.now) }
{
    match table.types.as_slice().get(usize::from(number)) {
        Some(event) => field_named(alloc, &event.fields, name),
        None => Ok(missing_field(Some(7))),
    }
}

#[tactic(auto, unfolding(crate::specs::Postfix::field_of))]
fn field_of(
    alloc: Global,
    table: &Table,
    shape: &Option<Shape>,
    name: &str,
) -> Result<Reach, AllocError>
    ensures { IfOk result (λ r. r ≡ field_of table.now shape.now name.now) }
{
    match shape {
        None => Ok(missing_field(None)),
        Some(Shape::Event(number)) => field_in(alloc, table, *number, name),
        Some(_) => Ok(missing_field(Some(7))),
    }
}

/// A field behind a value.
pub fn field_found(
    alloc: Global,
    table: &Table,
    name: &str,
    spot: Spot,
    need: Need,
    walk: Walk,
) -> Result<Walk, Refusal>
    ensures { Finds result (field_found table.now name.now spot (demand_of need.entry) walk) }
{
    let reach = field_of(alloc, table, &walk.shape, name)?;
    reached(alloc, spot, need, walk.root, walk, reach)
}

/// What is asked of an index.
#[tactic(auto, unfolding(crate::specs::Postfix::index_wish))]
pub fn index_asked(shape: &Option<Shape>) -> Asks<'_>
    ensures { wish_of result ≡ index_wish shape.now }
{
    match shape {
        Some(Shape::Sequence(_)) => Asks::Integer,
        Some(Shape::Dictionary(key, _)) => Asks::Exactly(key.get()),
        _ => Asks::Value,
    }
}

fn element(alloc: Global, shape: &Shape, node: TypedSuffixNode) -> Result<Reach, AllocError>
    ensures { IfOk result (λ r. r ≡ element_of_shape shape.now node) }
{
    Ok(Reach {
        own: None,
        given: Gives::Value(copy_shape(alloc, shape)?),
        node,
    })
}

#[tactic(auto, unfolding(crate::specs::Postfix::element_reach))]
fn element_reach(
    alloc: Global,
    shape: &Option<Shape>,
    typed: TypedExpr,
) -> Result<Reach, AllocError>
    ensures { IfOk result (λ r. r ≡ element_reach shape.now typed) }
{
    match shape {
        None => Ok(unknown_element(None, Boxed::new(alloc, typed)?)),
        Some(Shape::Sequence(item)) => {
            let node = TypedSuffixNode::Item(Boxed::new(alloc, typed)?);
            element(alloc, item.get(), node)
        }
        Some(Shape::Dictionary(_, value)) => {
            let node = TypedSuffixNode::Key(Boxed::new(alloc, typed)?);
            element(alloc, value.get(), node)
        }
        Some(_) => Ok(unknown_element(Some(10), Boxed::new(alloc, typed)?)),
    }
}

fn unknown_element(own: Option<u8>, typed: Boxed<TypedExpr>) -> Reach
    ensures { result ≡ unknown_element own typed }
{
    Reach {
        own,
        given: Gives::Unknown,
        node: TypedSuffixNode::Item(typed),
    }
}

fn nearer(root: Option<Root>) -> Option<Root>
    ensures { result ≡ nearer root }
{
    match root {
        None => None,
        Some(root) => Some(Root {
            kind: root.kind,
            reference: root.reference,
            left: root.left.saturating_sub(1),
        }),
    }
}

fn is_far(changed: bool, root: Option<Root>) -> bool
    ensures { result ≡ is_far changed root }
{
    match root {
        None => false,
        Some(root) => changed && root.left == 0,
    }
}

fn near(own: Spot, changed: bool, root: Option<Root>) -> Result<Option<Root>, Refusal>
    ensures { Finds result (near own changed root) }
{
    if is_far(changed, root) {
        Err(Refusal::Fault(Fault { code: 4, spot: own }))
    } else {
        Ok(nearer(root))
    }
}

/// An element behind a value, with its index.
#[tactic(auto, using(crate::proofs::Then::binds), unfolding(crate::specs::Postfix::element_step))]
pub fn element_step(
    alloc: Global,
    own: Spot,
    spot: Spot,
    need: Need,
    walk: Walk,
    judged: Judged,
) -> Result<Walk, Refusal>
    ensures { Finds result (element_step own spot (demand_of need.entry) walk judged) }
{
    let root = near(own, need.changed, walk.root)?;
    element_stands(alloc, spot, need, root, walk, judged)
}

fn element_stands(
    alloc: Global,
    spot: Spot,
    need: Need,
    root: Option<Root>,
    walk: Walk,
    judged: Judged,
) -> Result<Walk, Refusal>
    ensures { Finds result (element_stands spot (demand_of need.entry) walk judged root) }
{
    let reach = element_reach(alloc, &walk.shape, judged.typed)?;
    reached(alloc, spot, need, root, walk, reach)
}

/// A method behind a value, with its arguments.
#[tactic(auto, unfolding(crate::specs::Postfix::method_stands))]
pub fn method_stands(
    alloc: Global,
    spot: Spot,
    need: Need,
    walk: Walk,
    called: Called,
    arguments: Arguments,
) -> Result<Walk, Refusal>
    ensures { Finds result (method_stands spot (demand_of need.entry) walk called arguments) }
{
    let reach = method_reach(called, walk.root, arguments);
    reached(alloc, spot, need, None, walk, reach)
}

/// A value with its steps.
#[tactic(auto, unfolding(crate::specs::Postfix::postfix_of))]
pub fn postfix_of(alloc: Global, walk: Walk) -> Result<Judged, Refusal>
    ensures { Finds result (postfix_of walk) }
{
    let Walk {
        first,
        suffixes,
        shape,
        root,
    } = walk;
    Ok(Judged {
        typed: TypedExpr {
            shape,
            node: TypedNode::Postfix(Boxed::new(alloc, first)?, suffixes),
        },
        root,
        signed: false,
    })
}
