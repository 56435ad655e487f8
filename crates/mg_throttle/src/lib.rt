//! Queue limits: which feeders of a graph are throttled.
//! Answers to the definitions of `specs/Throttle.antt`.
#![tactic(auto)]

mod limits;
mod queue;
mod reach;
mod row;

pub use limits::Limits;
