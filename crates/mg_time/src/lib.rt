//! Timestamps: the order of all that happens in a graph.
//! Answers to the definitions of `specs/Time.antt` and `specs/Text.antt`.
#![tactic(auto)]

pub mod laws;
mod timestamp;

pub use timestamp::Timestamp;
