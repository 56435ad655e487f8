//! The edge to the outside: sources of bytes, sinks for bytes, and stores that read files by name. Each object counts
//! its faults, so that a caller's contract can say that it answers a fault only if one happened. What a call does is
//! defined in `specs/Edge.antt`.
#![tactic(auto)]

mod folder_store;
mod gate;
pub mod laws;
mod loaded_names;
mod memory_sink;
mod memory_source;
mod memory_store;
mod reader_source;
mod sink;
mod source;
mod store;
mod writer_sink;

pub use folder_store::FolderStore;
pub use gate::{Gate, MeetGate, StillGate};
pub use memory_sink::MemorySink;
pub use memory_source::MemorySource;
pub use memory_store::MemoryStore;
pub use reader_source::ReaderSource;
pub use sink::{Put, Sink};
pub use source::{Got, Source};
pub use store::{Loaded, MOST_LOADED, Store};
pub use writer_sink::WriterSink;

/// How often a call that a signal interrupted is tried again before it counts as failed.
const MOST_INTERRUPTIONS: u32 = 1000;
