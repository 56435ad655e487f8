//! A calculator of one's own, as an example: a threshold. Answers to the definitions of `specs/Threshold.antt`.
#![tactic(auto)]

mod threshold;

pub use threshold::{Threshold, parameters, threshold_box};
