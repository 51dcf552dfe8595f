ghost use Rattle.std.specs.Prelude.{◌≡◌, ◌≤◌, [], pos, neg_ℤ, IfOk};
ghost use Rattle.type_table.specs.Found.{Finds};
ghost use Rattle.expr_rules.specs.Asked.{demand_of, wish_of};
ghost use Rattle.typed_program.specs.Shapes.{is_sequence, is_dictionary};
ghost use Rattle.expr_rules.specs.Literals.{number_of, greatest, within, integer_value, integer_found, integer_stands, literal_stands, fixed, empty_code, empty_stands, empty_sequence, empty_dictionary, known_first, element_of, no_elements, sequence_given, full_sequence, sequence_of, entry_of, no_entries, dictionary_given, full_dictionary, dictionary_of, key_wish, element_wish, value_wish, new_stands, text_stands, boolean_stands, current_stands};

use crate::asked::{Asks, Need};
use crate::placed::{Gives, Judged, placed, stands};
use crate::shapes::{is_dictionary, is_sequence};
use epl_values::{List, Shape, Text, copy_shape};
use span_text::Spot;
use sqlite_items::Boxed;
use std::alloc::{AllocError, Global};
use type_table::{Refusal, copy_known};
use typed_program::{TypedEntries, TypedEntry, TypedExpr, TypedExprs, TypedNode};

/// Elements of a literal so far, and their shape, if it is known.
#[derive(Drop)]
pub struct Elements {
    pub shape: Option<Shape>,
    pub items: TypedExprs,
}

/// Entries of a literal so far, and the shapes of keys and values, if they are known.
#[derive(Drop)]
pub struct EntryList {
    pub key: Option<Shape>,
    pub value: Option<Shape>,
    pub entries: TypedEntries,
}

/// The number of digits, if it isn't greater than a limit.
#[tactic(auto, using(crate::proofs::Digits::digits))]
fn number_within(limit: u64, digits: &str) -> Option<u64>
    ensures { result ≡ within limit (number_of digits.now) }
{
    let mut number = 0u64;
    'digits: for digit in digits.as_bytes() {
        let longer = u128::from(number) * 10 + u128::from(digit.saturating_sub(48));
        if longer > u128::from(limit) {
            return None;
        }
        number = longer as u64;
    }
    if number <= limit { Some(number) } else { None }
}

fn greatest(signed: bool) -> u64
    ensures result { result ≡ greatest signed }
    ensures small { result ≤ 9223372036854775808 }
{
    if signed {
        9_223_372_036_854_775_808
    } else {
        9_223_372_036_854_775_807
    }
}

fn integer_value(signed: bool, number: u64) -> i64
    requires { number ≤ greatest signed }
    ensures { result ≡ integer_value signed number }
{
    if signed {
        (-i128::from(number)) as i64
    } else {
        number as i64
    }
}

#[tactic(auto, using(crate::proofs::Then::binds))]
fn literal(spot: Spot, need: Need, own: Option<u8>, value: i64) -> Result<Judged, Refusal>
    ensures { Finds result (literal_stands spot (demand_of need.entry) own value) }
{
    let shape = placed(spot, need, own, None, Gives::Value(Shape::Integer))?;
    Ok(Judged {
        typed: TypedExpr {
            shape,
            node: TypedNode::Integer(value),
        },
        root: None,
        signed: need.signed,
    })
}

/// An integer.
pub fn integer(spot: Spot, need: Need, digits: &str) -> Result<Judged, Refusal>
    ensures { Finds result (integer_found spot (demand_of need.entry) digits.now) }
{
    match number_within(greatest(need.signed), digits) {
        Some(number) => literal(spot, need, None, integer_value(need.signed, number)),
        None => literal(spot, need, Some(11), 0),
    }
}

/// The shape of an empty sequence, where its place fixes one.
#[tactic(auto, unfolding(typed_program::specs::Shapes::is_sequence))]
fn fixed_sequence(alloc: Global, asks: Asks) -> Result<Option<Shape>, AllocError>
    ensures { IfOk result (λ s. s ≡ fixed is_sequence (wish_of asks.entry)) }
{
    match asks {
        Asks::Exactly(shape) => {
            if is_sequence(shape) {
                Ok(Some(copy_shape(alloc, shape)?))
            } else {
                Ok(None)
            }
        }
        _ => Ok(None),
    }
}

/// The shape of an empty dictionary, where its place fixes one.
#[tactic(auto, unfolding(typed_program::specs::Shapes::is_dictionary))]
fn fixed_dictionary(alloc: Global, asks: Asks) -> Result<Option<Shape>, AllocError>
    ensures { IfOk result (λ s. s ≡ fixed is_dictionary (wish_of asks.entry)) }
{
    match asks {
        Asks::Exactly(shape) => {
            if is_dictionary(shape) {
                Ok(Some(copy_shape(alloc, shape)?))
            } else {
                Ok(None)
            }
        }
        _ => Ok(None),
    }
}

fn empty_code(asks: Asks) -> Option<u8>
    ensures { result ≡ empty_code (wish_of asks.entry) }
{
    match asks {
        Asks::AnyKey => Some(3),
        Asks::Key(_) => Some(3),
        Asks::Unknown => None,
        _ => Some(9),
    }
}

fn empty_stands(
    shape: Option<Shape>,
    node: TypedNode,
    spot: Spot,
    need: Need,
) -> Result<Judged, Refusal>
    ensures { Finds result (empty_stands shape node spot (demand_of need.entry)) }
{
    match shape {
        Some(shape) => stands(spot, need, None, None, Gives::Value(shape), node),
        None => stands(
            spot,
            need,
            empty_code(need.asks),
            None,
            Gives::Unknown,
            node,
        ),
    }
}

/// `[]`.
pub fn empty_sequence(alloc: Global, spot: Spot, need: Need) -> Result<Judged, Refusal>
    ensures { Finds result (empty_sequence spot (demand_of need.entry)) }
{
    let shape = fixed_sequence(alloc, need.asks)?;
    empty_stands(shape, TypedNode::Sequence(List::new(alloc)), spot, need)
}

/// `{}`.
pub fn empty_dictionary(alloc: Global, spot: Spot, need: Need) -> Result<Judged, Refusal>
    ensures { Finds result (empty_dictionary spot (demand_of need.entry)) }
{
    let shape = fixed_dictionary(alloc, need.asks)?;
    empty_stands(shape, TypedNode::Dictionary(List::new(alloc)), spot, need)
}

fn known_first(
    alloc: Global,
    shape: Option<Shape>,
    other: &Option<Shape>,
) -> Result<Option<Shape>, AllocError>
    ensures { IfOk result (λ s. s ≡ known_first shape other.now) }
{
    match shape {
        Some(shape) => Ok(Some(shape)),
        None => copy_known(alloc, other),
    }
}

/// No elements.
pub fn no_elements(alloc: Global) -> Elements
    ensures { result ≡ no_elements }
{
    Elements {
        shape: None,
        items: List::new(alloc),
    }
}

/// What the next element is asked for.
pub fn element_asked(elements: &Elements) -> Asks<'_>
    ensures { wish_of result ≡ element_wish elements.now }
{
    match &elements.shape {
        Some(shape) => Asks::Exactly(shape),
        None => match elements.items.len() {
            0 => Asks::Value,
            _ => Asks::Unknown,
        },
    }
}

/// One more element.
pub fn element_of(alloc: Global, elements: Elements, judged: Judged) -> Result<Elements, Refusal>
    ensures { Finds result (element_of elements judged) }
{
    let Elements { shape, mut items } = elements;
    let shape = known_first(alloc, shape, &judged.typed.shape)?;
    items.push(judged.typed)?;
    Ok(Elements { shape, items })
}

fn sequence_given(alloc: Global, shape: Option<Shape>) -> Result<Gives, AllocError>
    ensures { IfOk result (λ g. g ≡ sequence_given shape) }
{
    match shape {
        Some(shape) => Ok(Gives::Value(Shape::Sequence(Boxed::new(alloc, shape)?))),
        None => Ok(Gives::Unknown),
    }
}

fn full_sequence(
    alloc: Global,
    spot: Spot,
    need: Need,
    elements: Elements,
) -> Result<Judged, Refusal>
    ensures { Finds result (full_sequence elements.items elements.shape spot (demand_of need.entry)) }
{
    let given = sequence_given(alloc, elements.shape)?;
    stands(
        spot,
        need,
        None,
        None,
        given,
        TypedNode::Sequence(elements.items),
    )
}

/// A literal of a sequence.
#[tactic(auto, unfolding(crate::specs::Literals::sequence_of))]
pub fn sequence(
    alloc: Global,
    spot: Spot,
    need: Need,
    elements: Elements,
) -> Result<Judged, Refusal>
    ensures { Finds result (sequence_of spot (demand_of need.entry) elements) }
{
    match elements.items.len() {
        0 => empty_sequence(alloc, spot, need),
        _ => full_sequence(alloc, spot, need, elements),
    }
}

/// What a key is asked for.
pub fn key_asked(shape: &Option<Shape>) -> Asks<'_>
    ensures { wish_of result ≡ key_wish shape.now }
{
    match shape {
        Some(shape) => Asks::Key(shape),
        None => Asks::AnyKey,
    }
}

/// The default of a type.
#[tactic(auto, unfolding(crate::specs::Literals::new_stands))]
pub fn new_stands(spot: Spot, need: Need, shape: Shape) -> Result<Judged, Refusal>
    ensures { Finds result (new_stands spot (demand_of need.entry) shape) }
{
    stands(
        spot,
        need,
        None,
        None,
        Gives::Value(shape),
        TypedNode::Default,
    )
}

/// A text.
pub fn quoted(alloc: Global, spot: Spot, need: Need, text: &str) -> Result<Judged, Refusal>
    ensures { Finds result (text_stands spot (demand_of need.entry) text.now) }
{
    let node = TypedNode::Text(Text::of(alloc, text)?);
    stands(spot, need, None, None, Gives::Value(Shape::Text), node)
}

/// `true` or `false`.
pub fn boolean(spot: Spot, need: Need, value: bool) -> Result<Judged, Refusal>
    ensures { Finds result (boolean_stands spot (demand_of need.entry) value) }
{
    stands(
        spot,
        need,
        None,
        None,
        Gives::Value(Shape::Boolean),
        TypedNode::Boolean(value),
    )
}

/// `context.current()`.
pub fn current(spot: Spot, need: Need) -> Result<Judged, Refusal>
    ensures { Finds result (current_stands spot (demand_of need.entry)) }
{
    stands(
        spot,
        need,
        None,
        None,
        Gives::Value(Shape::Context),
        TypedNode::ContextCurrent,
    )
}

/// No entries.
pub fn no_entries(alloc: Global) -> EntryList
    ensures { result ≡ no_entries }
{
    EntryList {
        key: None,
        value: None,
        entries: List::new(alloc),
    }
}

/// What the value of the next entry is asked for.
pub fn value_asked(entries: &EntryList) -> Asks<'_>
    ensures { wish_of result ≡ value_wish entries.now }
{
    match &entries.value {
        Some(shape) => Asks::Exactly(shape),
        None => match entries.entries.len() {
            0 => Asks::Value,
            _ => Asks::Unknown,
        },
    }
}

/// One more entry.
#[tactic(auto, unfolding(crate::specs::Literals::entry_of))]
pub fn entry_of(
    alloc: Global,
    entries: EntryList,
    key: Judged,
    value: Judged,
) -> Result<EntryList, Refusal>
    ensures { Finds result (entry_of entries key value) }
{
    let EntryList {
        key: key_shape,
        value: value_shape,
        mut entries,
    } = entries;
    let key_shape = known_first(alloc, key_shape, &key.typed.shape)?;
    let value_shape = known_first(alloc, value_shape, &value.typed.shape)?;
    entries.push(TypedEntry {
        key: key.typed,
        value: value.typed,
    })?;
    Ok(EntryList {
        key: key_shape,
        value: value_shape,
        entries,
    })
}

fn dictionary_given(
    alloc: Global,
    key: Option<Shape>,
    value: Option<Shape>,
) -> Result<Gives, AllocError>
    ensures { IfOk result (λ g. g ≡ dictionary_given key value) }
{
    match (key, value) {
        (Some(key), Some(value)) => Ok(Gives::Value(Shape::Dictionary(
            Boxed::new(alloc, key)?,
            Boxed::new(alloc, value)?,
        ))),
        _ => Ok(Gives::Unknown),
    }
}

fn full_dictionary(
    alloc: Global,
    spot: Spot,
    need: Need,
    entries: EntryList,
) -> Result<Judged, Refusal>
    ensures { Finds result (full_dictionary entries.entries (dictionary_given entries.key entries.value) spot (demand_of need.entry)) }
{
    let given = dictionary_given(alloc, entries.key, entries.value)?;
    stands(
        spot,
        need,
        None,
        None,
        given,
        TypedNode::Dictionary(entries.entries),
    )
}

/// A literal of a dictionary.
#[tactic(auto, unfolding(crate::specs::Literals::dictionary_of))]
pub fn dictionary(
    alloc: Global,
    spot: Spot,
    need: Need,
    entries: EntryList,
) -> Result<Judged, Refusal>
    ensures { Finds result (dictionary_of spot (demand_of need.entry) entries) }
{
    match entries.entries.len() {
        0 => empty_dictionary(alloc, spot, need),
        _ => full_dictionary(alloc, spot, need, entries),
    }
}
