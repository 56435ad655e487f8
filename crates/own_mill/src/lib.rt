//! A calculator of one's own that computes for long, with which workers are tried and measured. Answers to the definitions of
//! `specs/Mill.antt`.
#![tactic(auto)]

mod mill;

pub use mill::{Mill, mill_box};
