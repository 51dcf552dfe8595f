ghost use Rattle.std.specs.Prelude.{◌≡◌, ◌∷◌, [], IfOk};
ghost use Rattle.epl_values.specs.declared.shape.Shape.TheVariants as shape;
ghost use Rattle.expr_rules.specs.declared.placed.Gives.TheVariants as gives;
ghost use Rattle.typed_program.specs.Shapes.{is_scalar};
ghost use Rattle.expr_rules.specs.Methods.{method_named, later_named, changes, is_change, signature_of, plain_methods, text_methods, sequence_methods, dictionary_methods, event_methods, listener_methods, text_row, place_row, row, row_of, unknown_call, called_by, called_of, call_code, method_reach};

use crate::asked::Paths;
use crate::calls::{Arguments, Wants, count_code, no_arguments};
use crate::placed::{Gives, Root, change_code, lower};
use epl_values::{List, Shape, copy_shape};
use sqlite_items::Boxed;
use std::alloc::{AllocError, Global};
use type_table::{holds_link, is_scalar};
use typed_program::{Method, TypedExprs, TypedSuffixNode};

/// A method of what stands before it: whether its arguments are counted, its code where the type doesn't have it, and
/// what it gives.
#[derive(Drop)]
pub struct Called {
    pub method: Method,
    pub counted: bool,
    pub own: Option<u8>,
    pub given: Gives,
}

/// A method, and what its arguments are asked for.
#[derive(Drop)]
pub struct MethodCall {
    pub called: Called,
    pub start: Arguments,
}

/// What a step comes to, before its place is looked at.
#[derive(Drop)]
pub struct Reach {
    pub own: Option<u8>,
    pub given: Gives,
    pub node: TypedSuffixNode,
}

/// The method of a name.
#[tactic(auto, unfolding(crate::specs::Methods::method_named))]
pub fn method_named(name: &str) -> Option<Method>
    ensures { result ≡ method_named name.now }
{
    if name == "toString" {
        Some(Method::ToString)
    } else if name == "length" {
        Some(Method::Length)
    } else if name == "substring" {
        Some(Method::Substring)
    } else if name == "size" {
        Some(Method::Size)
    } else if name == "indexOf" {
        Some(Method::IndexOf)
    } else if name == "hasKey" {
        Some(Method::HasKey)
    } else if name == "keys" {
        Some(Method::Keys)
    } else {
        changing_named(name)
    }
}

#[tactic(auto, unfolding(crate::specs::Methods::later_named))]
fn changing_named(name: &str) -> Option<Method>
    ensures { result ≡ later_named name.now }
{
    if name == "append" {
        Some(Method::Append)
    } else if name == "remove" {
        Some(Method::Remove)
    } else if name == "clear" {
        Some(Method::Clear)
    } else if name == "add" {
        Some(Method::Add)
    } else if name == "clone" {
        Some(Method::Clone)
    } else if name == "quit" {
        Some(Method::Quit)
    } else {
        None
    }
}

/// Whether a method changes its object.
pub fn changes(method: Method) -> bool
    ensures { result ≡ changes method }
{
    match method {
        Method::Append => true,
        Method::Remove => true,
        Method::Clear => true,
        Method::Add => true,
        _ => false,
    }
}

/// Whether a name is that of a method that changes its object.
pub fn is_change(name: &str) -> bool
    ensures { result ≡ is_change (method_named name.now) }
{
    match method_named(name) {
        Some(method) => changes(method),
        None => false,
    }
}

fn one_wanted(alloc: Global, first: Shape) -> Result<Wants, AllocError>
    ensures { IfOk result (λ w. w ≡ Some first ∷ []) }
{
    let mut wants = List::new(alloc);
    wants.push(Some(first))?;
    Ok(wants)
}

/// Two shapes that are asked for.
pub fn two_wanted(alloc: Global, first: Shape, second: Shape) -> Result<Wants, AllocError>
    ensures { IfOk result (λ w. w ≡ Some first ∷ Some second ∷ []) }
{
    let mut wants = one_wanted(alloc, first)?;
    wants.push(Some(second))?;
    Ok(wants)
}

fn row_of(alloc: Global, method: Method, wants: Wants, given: Gives) -> MethodCall
    ensures { result ≡ row_of method wants given }
{
    MethodCall {
        called: Called {
            method,
            counted: true,
            own: None,
            given,
        },
        start: no_arguments(alloc, Paths::Refused, wants),
    }
}

fn row0(alloc: Global, method: Method, given: Gives) -> Option<MethodCall>
    ensures { result ≡ row method [] given }
{
    Some(row_of(alloc, method, List::new(alloc), given))
}

fn row1(
    alloc: Global,
    method: Method,
    first: Shape,
    given: Gives,
) -> Result<Option<MethodCall>, AllocError>
    ensures { IfOk result (λ s. s ≡ row method (first ∷ []) given) }
{
    let wants = one_wanted(alloc, first)?;
    Ok(Some(row_of(alloc, method, wants, given)))
}

fn row2(
    alloc: Global,
    method: Method,
    first: Shape,
    second: Shape,
    given: Gives,
) -> Result<Option<MethodCall>, AllocError>
    ensures { IfOk result (λ s. s ≡ row method (first ∷ second ∷ []) given) }
{
    let wants = two_wanted(alloc, first, second)?;
    Ok(Some(row_of(alloc, method, wants, given)))
}

fn text_row(alloc: Global, holds: bool) -> Option<MethodCall>
    ensures { result ≡ text_row holds }
{
    if holds {
        None
    } else {
        row0(alloc, Method::ToString, Gives::Value(Shape::Text))
    }
}

fn place_row(alloc: Global, item: &Shape) -> Result<Option<MethodCall>, AllocError>
    ensures { IfOk result (λ s. s ≡ place_row item.now (is_scalar item.now)) }
{
    if is_scalar(item) {
        row1(
            alloc,
            Method::IndexOf,
            copy_shape(alloc, item)?,
            Gives::Value(Shape::Integer),
        )
    } else {
        Ok(None)
    }
}

fn plain_methods(alloc: Global, method: Method) -> Option<MethodCall>
    ensures { result ≡ plain_methods method }
{
    match method {
        Method::ToString => row0(alloc, Method::ToString, Gives::Value(Shape::Text)),
        _ => None,
    }
}

fn text_methods(alloc: Global, method: Method) -> Result<Option<MethodCall>, AllocError>
    ensures { IfOk result (λ s. s ≡ text_methods method) }
{
    match method {
        Method::Length => Ok(row0(alloc, Method::Length, Gives::Value(Shape::Integer))),
        Method::Substring => row2(
            alloc,
            Method::Substring,
            Shape::Integer,
            Shape::Integer,
            Gives::Value(Shape::Text),
        ),
        _ => Ok(None),
    }
}

fn sequence_type(alloc: Global, item: &Shape) -> Result<Gives, AllocError>
    ensures { IfOk result (λ g. g ≡ gives.Value (shape.Sequence item.now)) }
{
    let item = copy_shape(alloc, item)?;
    Ok(Gives::Value(Shape::Sequence(Boxed::new(alloc, item)?)))
}

fn dictionary_type(alloc: Global, key: &Shape, value: &Shape) -> Result<Gives, AllocError>
    ensures { IfOk result (λ g. g ≡ gives.Value (shape.Dictionary key.now value.now)) }
{
    let key = Boxed::new(alloc, copy_shape(alloc, key)?)?;
    let value = Boxed::new(alloc, copy_shape(alloc, value)?)?;
    Ok(Gives::Value(Shape::Dictionary(key, value)))
}

fn sequence_methods(
    alloc: Global,
    item: &Shape,
    method: Method,
) -> Result<Option<MethodCall>, AllocError>
    ensures { IfOk result (λ s. s ≡ sequence_methods item.now method) }
{
    match method {
        Method::Size => Ok(row0(alloc, Method::Size, Gives::Value(Shape::Integer))),
        Method::Append => row1(
            alloc,
            Method::Append,
            copy_shape(alloc, item)?,
            Gives::Nothing,
        ),
        Method::Remove => row1(alloc, Method::Remove, Shape::Integer, Gives::Nothing),
        Method::Clear => Ok(row0(alloc, Method::Clear, Gives::Nothing)),
        Method::IndexOf => place_row(alloc, item),
        Method::Clone => Ok(row0(alloc, Method::Clone, sequence_type(alloc, item)?)),
        Method::ToString => Ok(text_row(alloc, holds_link(item))),
        _ => Ok(None),
    }
}

fn dictionary_methods(
    alloc: Global,
    key: &Shape,
    value: &Shape,
    method: Method,
) -> Result<Option<MethodCall>, AllocError>
    ensures { IfOk result (λ s. s ≡ dictionary_methods key.now value.now method) }
{
    match method {
        Method::Size => Ok(row0(alloc, Method::Size, Gives::Value(Shape::Integer))),
        Method::Add => row2(
            alloc,
            Method::Add,
            copy_shape(alloc, key)?,
            copy_shape(alloc, value)?,
            Gives::Nothing,
        ),
        Method::Remove => row1(
            alloc,
            Method::Remove,
            copy_shape(alloc, key)?,
            Gives::Nothing,
        ),
        Method::Clear => Ok(row0(alloc, Method::Clear, Gives::Nothing)),
        Method::HasKey => row1(
            alloc,
            Method::HasKey,
            copy_shape(alloc, key)?,
            Gives::Value(Shape::Boolean),
        ),
        Method::Keys => Ok(row0(alloc, Method::Keys, sequence_type(alloc, key)?)),
        Method::Clone => Ok(row0(alloc, Method::Clone, dictionary_type(alloc, key, value)?)),
        Method::ToString => Ok(text_row(alloc, holds_link(key) || holds_link(value))),
        _ => Ok(None),
    }
}

fn event_methods(alloc: Global, number: u16, method: Method) -> Option<MethodCall>
    ensures { result ≡ event_methods number method }
{
    match method {
        Method::Clone => row0(alloc, Method::Clone, Gives::Value(Shape::Event(number))),
        Method::ToString => row0(alloc, Method::ToString, Gives::Value(Shape::Text)),
        _ => None,
    }
}

fn listener_methods(alloc: Global, method: Method) -> Option<MethodCall>
    ensures { result ≡ listener_methods method }
{
    match method {
        Method::Quit => row0(alloc, Method::Quit, Gives::Nothing),
        _ => None,
    }
}

/// A method of a type.
#[tactic(auto, unfolding(crate::specs::Methods::signature_of))]
fn signature_of(
    alloc: Global,
    shape: &Shape,
    method: Method,
) -> Result<Option<MethodCall>, AllocError>
    ensures { IfOk result (λ s. s ≡ signature_of shape.now method) }
{
    match shape {
        Shape::Integer => Ok(plain_methods(alloc, method)),
        Shape::Boolean => Ok(plain_methods(alloc, method)),
        Shape::Text => text_methods(alloc, method),
        Shape::Sequence(item) => sequence_methods(alloc, item.get(), method),
        Shape::Dictionary(key, value) => dictionary_methods(alloc, key.get(), value.get(), method),
        Shape::Event(number) => Ok(event_methods(alloc, *number, method)),
        Shape::Context => Ok(None),
        Shape::Listener => Ok(listener_methods(alloc, method)),
    }
}

fn unknown_call(alloc: Global, own: Option<u8>) -> MethodCall
    ensures { result ≡ unknown_call own }
{
    MethodCall {
        called: Called {
            method: Method::ToString,
            counted: false,
            own,
            given: Gives::Unknown,
        },
        start: no_arguments(alloc, Paths::Refused, List::new(alloc)),
    }
}

fn called_on(alloc: Global, shape: &Shape, method: Method) -> Result<MethodCall, AllocError>
    ensures { IfOk result (λ c. c ≡ called_by (signature_of shape.now method)) }
{
    match signature_of(alloc, shape, method)? {
        Some(call) => Ok(call),
        None => Ok(unknown_call(alloc, Some(7))),
    }
}

/// A method of what stands before it, by its name.
pub fn called_of(alloc: Global, shape: &Option<Shape>, name: &str) -> Result<MethodCall, AllocError>
    ensures { IfOk result (λ c. c ≡ called_of shape.now (method_named name.now)) }
{
    match shape {
        None => Ok(unknown_call(alloc, None)),
        Some(shape) => match method_named(name) {
            None => Ok(unknown_call(alloc, Some(7))),
            Some(method) => called_on(alloc, shape, method),
        },
    }
}

fn call_code(called: &Called, root: Option<Root>, arguments: &Arguments) -> Option<u8>
    ensures { result ≡ call_code called.now root arguments.now }
{
    if called.counted {
        lower(
            count_code(arguments),
            change_code(changes(called.method), root),
        )
    } else {
        called.own
    }
}

/// What a method with its arguments comes to.
pub fn method_reach(called: Called, root: Option<Root>, arguments: Arguments) -> Reach
    ensures { result ≡ method_reach called root arguments }
{
    Reach {
        own: call_code(&called, root, &arguments),
        given: called.given,
        node: TypedSuffixNode::Method(called.method, arguments.items),
    }
}
