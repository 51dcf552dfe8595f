ghost use Rattle.std.specs.Prelude.{◌≡◌, ◌≤◌, length, IfOk, min};
ghost use Rattle.type_table.specs.Found.{Finds};
ghost use Rattle.type_table.specs.Names.{number_in};
ghost use Rattle.type_table.specs.Types.{type_by, type_found, known, event_shape, dictionary_of, sequence_of};
ghost use Rattle.typed_program.specs.Shapes.{is_scalar, is_reference, holds_link};
ghost use Rattle.span_text.specs.declared.spot.Spot.{Spot as Spotted};

use crate::fault::{Fault, Refusal};
use crate::names::Names;
use crate::table::Table;
use epl_tree::{TypeExpr, TypeNode};
use epl_values::Shape;
use span_text::Spot;
use sqlite_items::Boxed;
use std::alloc::{AllocError, Global};

/// Whether it is the shape of integers, booleans or texts.
#[tactic(auto, unfolding(typed_program::specs::Shapes::is_scalar))]
pub fn is_scalar(shape: &Shape) -> bool
    ensures { result ≡ is_scalar shape.now }
{
    match shape {
        Shape::Integer => true,
        Shape::Boolean => true,
        Shape::Text => true,
        _ => false,
    }
}

/// Whether it is the shape of sequences, dictionaries or events.
#[tactic(auto, unfolding(typed_program::specs::Shapes::is_reference))]
pub fn is_reference(shape: &Shape) -> bool
    ensures { result ≡ is_reference shape.now }
{
    match shape {
        Shape::Sequence(_) => true,
        Shape::Dictionary(_, _) => true,
        Shape::Event(_) => true,
        _ => false,
    }
}

/// Whether a context or a listener is in it at any depth of collections.
pub fn holds_link(shape: &Shape) -> bool
    ensures { result ≡ holds_link shape.now }
{
    match shape {
        Shape::Integer => false,
        Shape::Boolean => false,
        Shape::Text => false,
        Shape::Sequence(item) => holds_link(item.get()),
        Shape::Dictionary(key, value) => holds_link(key.get()) || holds_link(value.get()),
        Shape::Event(_) => false,
        Shape::Context => true,
        Shape::Listener => true,
    }
}

/// A number that fits, or 65,535 where it doesn't.
pub fn short(number: usize) -> u16
    ensures { result ≡ min 65535 number }
{
    if number < 65535 { number as u16 } else { 65535 }
}

fn named(names: &Names, name: &str, spot: Spot) -> Result<Shape, Refusal>
    ensures { Finds result (event_shape spot (number_in names.now name.now)) }
{
    match names.number_of(name) {
        Some(number) => Ok(Shape::Event(short(number))),
        None => Err(Refusal::Fault(Fault { code: 2, spot })),
    }
}

/// The shape of a type where these are the names of the event types, or its first fault.
pub(crate) fn shape_by(alloc: Global, names: &Names, written: &TypeExpr) -> Result<Shape, Refusal>
    ensures { Finds result (type_by (number_in names.now) written.now) }
{
    match &written.node {
        TypeNode::Integer => Ok(Shape::Integer),
        TypeNode::Boolean => Ok(Shape::Boolean),
        TypeNode::Text => Ok(Shape::Text),
        TypeNode::Context => Ok(Shape::Context),
        TypeNode::Listener => Ok(Shape::Listener),
        TypeNode::Named(name) => named(names, name.as_str(), written.spot),
        TypeNode::Sequence(item) => {
            let item = shape_by(alloc, names, item.get())?;
            Ok(Shape::Sequence(Boxed::new(alloc, item)?))
        }
        TypeNode::Dictionary(key, value) => {
            let key_shape = shape_by(alloc, names, key.get())?;
            let value_shape = shape_by(alloc, names, value.get())?;
            if !is_scalar(&key_shape) {
                return Err(Refusal::Fault(Fault {
                    code: 3,
                    spot: key.get().spot,
                }));
            }
            Ok(Shape::Dictionary(
                Boxed::new(alloc, key_shape)?,
                Boxed::new(alloc, value_shape)?,
            ))
        }
    }
}

/// The shape of a type, or its first fault.
pub fn shape_of(alloc: Global, table: &Table, written: &TypeExpr) -> Result<Shape, Refusal>
    ensures { Finds result (type_found table.now written.now) }
{
    shape_by(alloc, table.names(), written)
}

fn event_part(number: Option<usize>) -> Shape
    ensures { (spot : Spotted) → result ≡ (event_shape spot number).part }
{
    match number {
        Some(number) => Shape::Event(short(number)),
        None => Shape::Integer,
    }
}

/// The shape of a type that has no fault.
pub(crate) fn part_of(alloc: Global, names: &Names, written: &TypeExpr) -> Result<Shape, AllocError>
    ensures { IfOk result (λ s. s ≡ (type_by (number_in names.now) written.now).part) }
{
    match &written.node {
        TypeNode::Integer => Ok(Shape::Integer),
        TypeNode::Boolean => Ok(Shape::Boolean),
        TypeNode::Text => Ok(Shape::Text),
        TypeNode::Context => Ok(Shape::Context),
        TypeNode::Listener => Ok(Shape::Listener),
        TypeNode::Named(name) => Ok(event_part(names.number_of(name.as_str()))),
        TypeNode::Sequence(item) => {
            let item = part_of(alloc, names, item.get())?;
            Ok(Shape::Sequence(Boxed::new(alloc, item)?))
        }
        TypeNode::Dictionary(key, value) => {
            let key = part_of(alloc, names, key.get())?;
            let value = part_of(alloc, names, value.get())?;
            Ok(Shape::Dictionary(Boxed::new(alloc, key)?, Boxed::new(alloc, value)?))
        }
    }
}

/// The shape of a type, or `None` where it has a fault.
#[tactic(auto, using(crate::proofs::Order::unknown))]
pub(crate) fn known(
    alloc: Global,
    names: &Names,
    written: &TypeExpr,
) -> Result<Option<Shape>, AllocError>
    ensures { IfOk result (λ s. s ≡ known (type_by (number_in names.now) written.now)) }
{
    match shape_by(alloc, names, written) {
        Ok(shape) => Ok(Some(shape)),
        Err(Refusal::Fault(_)) => Ok(None),
        Err(Refusal::Memory) => Err(AllocError),
    }
}
