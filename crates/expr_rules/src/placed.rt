ghost use Rattle.std.specs.Prelude.{◌≡◌, ◌++◌};
ghost use Rattle.type_table.specs.Found.{Finds};
ghost use Rattle.expr_rules.specs.Then.{lowest, lower, codes_of};
ghost use Rattle.expr_rules.specs.Asked.{demand_of, wish_of};
ghost use Rattle.expr_rules.specs.Places.{fits, is_key, is_global, may_stand, given_codes, place_codes, key_codes, misfit_codes, path_codes, kind_is_fixed, change_code, astray_code, group_of, shape_given, known, placed, stands};

use crate::asked::{Asks, Need, Paths};
use crate::shapes::{is_channel, is_event, is_same, is_sequence};
use epl_values::Shape;
use span_text::Spot;
use type_table::{Fault, Refusal, SeenKind, is_reference, is_scalar};
use typed_program::{TypedExpr, TypedNode};

/// What a node gives.
#[derive(Drop)]
pub enum Gives {
    Nothing,
    /// Its type isn't known.
    Unknown,
    Value(Shape),
}

/// The variable from which a path leads: its kind, whether it is of reference type, and how many index steps may still
/// lead to what is changed.
#[derive(Clone, Copy)]
pub struct Root {
    pub kind: SeenKind,
    pub reference: bool,
    pub left: u8,
}

/// An expression, with the root of a path, and whether the minus right before it is part of it.
#[derive(Drop)]
pub struct Judged {
    pub typed: TypedExpr,
    pub root: Option<Root>,
    pub signed: bool,
}

fn fits(asks: Asks, shape: &Shape) -> bool
    ensures { result ≡ fits (wish_of asks.entry) shape.now }
{
    match asks {
        Asks::Exactly(wanted) => is_same(wanted, shape),
        Asks::Integer => is_same(&Shape::Integer, shape),
        Asks::Boolean => is_same(&Shape::Boolean, shape),
        Asks::Text => is_same(&Shape::Text, shape),
        Asks::Context => is_same(&Shape::Context, shape),
        Asks::Key(wanted) => is_same(wanted, shape),
        Asks::Event => is_event(shape),
        Asks::Sequence => is_sequence(shape),
        Asks::Channel => is_channel(shape),
        Asks::Statement => true,
        Asks::Value => true,
        Asks::Unknown => true,
        Asks::AnyKey => true,
    }
}

/// Whether a key is asked for.
fn is_key(asks: Asks) -> bool
    ensures { result ≡ is_key (wish_of asks.entry) }
{
    match asks {
        Asks::AnyKey => true,
        Asks::Key(_) => true,
        _ => false,
    }
}

fn is_global(kind: SeenKind) -> bool
    ensures { result ≡ is_global kind }
{
    match kind {
        SeenKind::Global => true,
        _ => false,
    }
}

fn may_stand(paths: Paths, root: Option<Root>) -> bool
    ensures { result ≡ may_stand paths root }
{
    match root {
        None => true,
        Some(root) => match paths {
            Paths::Free => true,
            Paths::NotOfGlobals => !is_global(root.kind),
            Paths::Refused => false,
        },
    }
}

fn shape_code(need: Need, root: Option<Root>, shape: &Shape) -> Option<u8>
    ensures { let demand = demand_of need.entry in result ≡ lowest (key_codes demand.wish shape.now ++ misfit_codes demand.wish shape.now ++ path_codes demand.paths root shape.now) }
{
    if is_key(need.asks) && !is_scalar(shape) {
        Some(3)
    } else if !fits(need.asks, shape) {
        Some(9)
    } else if !may_stand(need.paths, root) && is_reference(shape) {
        Some(13)
    } else {
        None
    }
}

fn given_code(need: Need, root: Option<Root>, given: &Gives) -> Option<u8>
    ensures { result ≡ lowest (given_codes (demand_of need.entry) root given.now) }
{
    match given {
        Gives::Nothing => match need.asks {
            Asks::Statement => None,
            _ => Some(9),
        },
        Gives::Unknown => None,
        Gives::Value(shape) => shape_code(need, root, shape),
    }
}

fn kind_is_fixed(kind: SeenKind, reference: bool) -> bool
    ensures { result ≡ kind_is_fixed kind reference }
{
    match kind {
        SeenKind::Bound => true,
        SeenKind::Global => false,
        SeenKind::Local => false,
        SeenKind::OuterLocal => false,
        _ => reference,
    }
}

/// The code of a change, where there is one.
pub fn change_code(changes: bool, root: Option<Root>) -> Option<u8>
    ensures { result ≡ change_code changes root }
{
    match root {
        None => None,
        Some(root) => {
            if changes && kind_is_fixed(root.kind, root.reference) {
                Some(12)
            } else {
                None
            }
        }
    }
}

/// The lower of two codes, if they are there.
pub fn lower(first: Option<u8>, second: Option<u8>) -> Option<u8>
    ensures { result ≡ lower first second }
{
    match (first, second) {
        (None, other) => other,
        (code, None) => code,
        (Some(code), Some(other)) => Some(if other <= code { other } else { code }),
    }
}

fn astray_code(astray: bool) -> Option<u8>
    ensures { result ≡ astray_code astray }
{
    if astray { Some(18) } else { None }
}

#[tactic(auto, using(crate::proofs::Codes::codes))]
fn place_code(need: Need, root: Option<Root>, given: &Gives) -> Option<u8>
    ensures { result ≡ lowest (place_codes (demand_of need.entry) root given.now) }
{
    let given = lower(astray_code(need.astray), given_code(need, root, given));
    lower(change_code(need.assigned, root), given)
}

fn shape_given(given: Gives) -> Option<Shape>
    ensures { result ≡ shape_given given }
{
    match given {
        Gives::Value(shape) => Some(shape),
        _ => None,
    }
}

/// What is known of a value.
pub fn known(shape: Option<Shape>) -> Gives
    ensures { result ≡ known shape }
{
    match shape {
        Some(shape) => Gives::Value(shape),
        None => Gives::Unknown,
    }
}

/// A node at its place, with the lowest of its own codes; what it gives.
#[tactic(auto, using(crate::proofs::Codes::codes), unfolding(crate::specs::Places::placed))]
pub fn placed(
    spot: Spot,
    need: Need,
    own: Option<u8>,
    root: Option<Root>,
    given: Gives,
) -> Result<Option<Shape>, Refusal>
    ensures { Finds result (placed spot (demand_of need.entry) own root given) }
{
    match lower(own, place_code(need, root, &given)) {
        Some(code) => Err(Refusal::Fault(Fault { code, spot })),
        None => Ok(shape_given(given)),
    }
}

/// An expression at its place, with the lowest of its own codes.
#[tactic(auto, using(crate::proofs::Then::binds))]
pub fn stands(
    spot: Spot,
    need: Need,
    own: Option<u8>,
    root: Option<Root>,
    given: Gives,
    node: TypedNode,
) -> Result<Judged, Refusal>
    ensures { Finds result (stands spot (demand_of need.entry) own root given node) }
{
    let shape = placed(spot, need, own, root, given)?;
    Ok(Judged {
        typed: TypedExpr { shape, node },
        root,
        signed: false,
    })
}

/// What stands in brackets.
#[tactic(auto, unfolding(crate::specs::Places::group_of))]
pub fn group_of(spot: Spot, need: Need, judged: Judged) -> Result<Judged, Refusal>
    ensures { Finds result (group_of spot (demand_of need.entry) judged) }
{
    match astray_code(need.astray) {
        Some(code) => Err(Refusal::Fault(Fault { code, spot })),
        None => Ok(judged),
    }
}
