//! The outside as traits: files that are read, sinks that are written, and a gate round the turns of contexts.
#![tactic(auto)]

mod disk_shelf;
mod gate;
mod honest_shelf;
mod honest_sink;
mod memory_shelf;
mod memory_sink;
mod plan;
mod store;
mod stream_sink;
mod traits;
mod whole;

pub use disk_shelf::DiskShelf;
pub use gate::{Gate, OpenGate};
pub use honest_shelf::HonestShelf;
pub use honest_sink::HonestSink;
pub use memory_shelf::MemoryShelf;
pub use memory_sink::MemorySink;
pub use plan::Calls;
pub use store::{StoredFile, StoredFiles};
pub use stream_sink::StreamSink;
pub use traits::{Found, Got, Put, Shelf, Sink, Source};
pub use whole::{FileFault, WriteFault, put_all, read_whole};
