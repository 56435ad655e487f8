//! Loopbacks: with each packet of MAIN comes what LOOP had at the packet of MAIN before it.
//! Answers to the definitions of `specs/Loopback.antt` and `specs/Standing.antt`.
#![tactic(auto)]

mod answered;
pub mod laws;
mod loopback;
mod turn;

pub use answered::Answered;
pub use loopback::Loopback;
