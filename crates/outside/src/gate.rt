/// What is called before and after each turn of a context, from the thread that runs it.
pub trait Gate: Sync {
    /// The turn with this number, from 1, is about to begin in this slot.
    fn before(&self, slot: u8, turn: u64);

    /// That turn has ended.
    fn after(&self, slot: u8, turn: u64);
}

/// A gate that does nothing.
#[derive(Clone, Copy, Debug)]
pub struct OpenGate;

impl Gate for OpenGate {
    fn before(&self, _slot: u8, _turn: u64) {}

    fn after(&self, _slot: u8, _turn: u64) {}
}
