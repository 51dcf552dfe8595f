use context_core::Cell;
use entry_queues::Queued;
use source_actor::Reader;

/// What runs: the contexts by slot, the reader, and for each of these actors the queue of what was sent to it and not yet
/// handled; that of the reader is the last.
#[derive(Drop)]
pub struct World {
    pub cells: Vec<Cell>,
    pub reader: Reader,
    pub queued: Queued,
}
