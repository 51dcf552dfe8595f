/// What one actor sends another: the sender's number, the number of the handling that sent it, and what it carries.
#[derive(Debug, Drop)]
pub struct Entry<C> {
    pub sender: u8,
    pub stamp: u64,
    pub cargo: C,
}

/// An entry that an actor has handled, and the number of that handling.
#[derive(Debug, Drop)]
pub struct Handled<C> {
    pub entry: Entry<C>,
    pub number: u64,
}

/// A step of the reader, with its number: an item of its own, or an entry that it was sent.
#[derive(Debug, Drop)]
pub enum ReaderStep<I, C> {
    Item(I, u64),
    Entry(Entry<C>, u64),
}
