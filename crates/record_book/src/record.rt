use crate::cargo::{Cargo, Lines};
use crate::item::Item;
use epl_values::List;

/// What a context receives: the slot of its sender, or the number of contexts for the reader, the number of the
/// handling that sent it, and what it carries.
pub type Entry = actor_theory::Entry<Cargo>;

/// Entries, in order.
pub type Entries = List<Entry>;

/// An entry that a context has handled, with the number of that handling.
pub type Handled = actor_theory::Handled<Cargo>;

/// What a context has handled, in order.
pub type HandledList = List<Handled>;

/// A step of the reader, with its number: an item of the event file, or an entry.
pub type ReaderStep = actor_theory::ReaderStep<Item, Cargo>;

/// The steps of the reader, in order.
pub type ReaderSteps = List<ReaderStep>;

/// What a run is set to.
#[derive(Clone, Copy, Debug)]
pub struct Settings {
    /// The fuel of each context.
    pub fuel: u64,
    /// How many contexts there are, with the main one.
    pub contexts: u8,
    /// How many entries a mailbox holds.
    pub mailbox: u32,
}

/// What is kept of a context: its lines, what it has handled, what was sent to it and not handled, and whether it is spent.
#[derive(Drop)]
pub struct ContextRecord {
    pub lines: Lines,
    pub handled: HandledList,
    pub left: Entries,
    pub spent: bool,
}

/// The records of the contexts, by slot.
pub type ContextRecords = List<ContextRecord>;

/// What is kept of the reader: its steps, and what was sent to it and not handled.
#[derive(Drop)]
pub struct ReaderRecord {
    pub steps: ReaderSteps,
    pub left: Entries,
}

/// What is kept of a run.
#[derive(Drop)]
pub struct Record {
    pub settings: Settings,
    pub contexts: ContextRecords,
    pub reader: ReaderRecord,
}
