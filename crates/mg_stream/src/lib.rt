//! Queues: what waits of a stream at one input; and pools: what waits at all inputs of one node.
//! Answers to the definitions of `specs/Queue.antt` and `specs/Pool.antt`.
#![tactic(auto)]

mod chain;
mod fault;
pub mod laws;
mod pool;
mod queue;
mod waits;

pub use fault::{Refused, StreamFault};
pub use pool::Pool;
pub use queue::Queue;
pub use waits::Waits;
