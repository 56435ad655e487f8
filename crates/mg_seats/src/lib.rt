//! A shared net as tests and measurements drive it. It is made without user-supplied calculators, shared, called by its seats, and put
//! together again. Answers to `specs/Held.antt`.
#![tactic(auto)]

mod calls;
mod nets;

pub use calls::{Idle, append, claim, commit, performed, raise, run, shelve};
pub use nets::{Shared, begun, shared_net, take_next, together};
