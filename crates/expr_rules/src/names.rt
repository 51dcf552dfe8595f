ghost use Rattle.std.specs.Prelude.{◌≡◌};
ghost use Rattle.type_table.specs.Found.{Finds};
ghost use Rattle.expr_rules.specs.Asked.{demand_of};
ghost use Rattle.expr_rules.specs.Names.{seen, outer_code, variable, root_of, name_found};

use crate::asked::Need;
use crate::placed::{Gives, Judged, Root, known, stands};
use crate::shapes::is_known_reference;
use epl_values::Shape;
use span_text::Spot;
use std::alloc::Global;
use type_table::{Refusal, Scope, Seen, SeenKind, copy_known};
use typed_program::TypedNode;

fn outer_code(kind: SeenKind, shape: &Option<Shape>) -> Option<u8>
    ensures { result ≡ outer_code kind shape.now }
{
    match kind {
        SeenKind::OuterLocal | SeenKind::OuterFixed => {
            if is_known_reference(shape) {
                Some(14)
            } else {
                None
            }
        }
        _ => None,
    }
}

fn variable(kind: SeenKind, number: u16) -> TypedNode
    ensures { result ≡ variable kind number }
{
    match kind {
        SeenKind::Global => TypedNode::Global(number),
        _ => TypedNode::Local(number),
    }
}

fn root_of(seen: &Seen) -> Root
    ensures { result ≡ root_of seen.now }
{
    Root {
        kind: seen.kind,
        reference: is_known_reference(&seen.shape),
        left: 64,
    }
}

fn variable_of(alloc: Global, spot: Spot, need: Need, seen: &Seen) -> Result<Judged, Refusal>
    ensures { Finds result (name_found spot (demand_of need.entry) (Some seen.now)) }
{
    let given = known(copy_known(alloc, &seen.shape)?);
    let own = outer_code(seen.kind, &seen.shape);
    stands(
        spot,
        need,
        own,
        Some(root_of(seen)),
        given,
        variable(seen.kind, seen.number),
    )
}

/// A name in an expression.
pub fn name_of(
    alloc: Global,
    scope: &Scope,
    spot: Spot,
    need: Need,
    name: &str,
) -> Result<Judged, Refusal>
    ensures { Finds result (name_found spot (demand_of need.entry) (seen scope.now name.now)) }
{
    match scope.seen_of(name) {
        None => stands(
            spot,
            need,
            Some(6),
            None,
            Gives::Unknown,
            TypedNode::Boolean(false),
        ),
        Some(place) => match scope.names.as_slice().get(place) {
            None => stands(
                spot,
                need,
                Some(6),
                None,
                Gives::Unknown,
                TypedNode::Boolean(false),
            ),
            Some(seen) => variable_of(alloc, spot, need, seen),
        },
    }
}
