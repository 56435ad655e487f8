//! Live graphs: how free nodes take packets while a graph runs, and what they hand on to its core.
//! Answers to the definitions of rounds in mg_free, and to `specs/Takes.antt`, which says what is kept of a free node.
#![tactic(auto)]

mod arrived;
mod due;
pub mod laws;
mod live_nodes;
mod streams;
mod taker;

pub use arrived::Arrived;
pub use due::Due;
pub use live_nodes::LiveNodes;
pub use streams::Streams;
pub use taker::Taker;
