//! The nodes that may run, for threads that share them: queues, one for each level of an order.
//! Answers to the definitions of `specs/Levels.antt`.
#![tactic(auto)]

mod hand;
mod level;
mod levels;
mod making;
mod rows;
mod seat;
mod share;

pub use levels::{LeftList, Levels};
pub use seat::LevelSeat;
