use epl_tree::Mode;
use epl_values::{List, Text};

/// An operand that was computed. Its number isn't bounded by 64 bits.
#[derive(Drop)]
pub enum Computed {
    Number(i128),
    Truth(bool),
    Letters(Text),
    /// There is no such value, or it is no scalar.
    Missing,
}

/// An end of a range of texts; a closed one lies in the range.
#[derive(Drop)]
pub struct TextEnd {
    pub text: Text,
    pub closed: bool,
}

/// A range of texts, by their bytes. A side without an end is unbounded.
#[derive(Drop)]
pub struct TextRange {
    pub low: Option<TextEnd>,
    pub high: Option<TextEnd>,
}

/// The values of a field that fit.
#[derive(Drop)]
pub enum Span {
    All,
    /// From the first to the second, both among them.
    Numbers(i128, i128),
    Is(bool),
    Texts(TextRange),
    /// Nothing fits.
    None,
}

/// Spans, one for each field of an event type.
pub type Spans = List<Span>;

/// An active leaf of an event expression, with one span for each field of its event type. Leaves of one expression are numbered
/// from 0 in order of their beginning. A wait has event 65,535 and its due time in `until`, the deadline of a group event 65,534;
/// both have no spans, and nothing fits them. Times are in tenths of a second.
#[derive(Drop)]
pub struct Leaf {
    pub number: u64,
    pub spans: Spans,
    pub event: u16,
    pub mode: Mode,
    pub until: Option<i128>,
}

/// Leaves, in order.
pub type Leaves = List<Leaf>;
