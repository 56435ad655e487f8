//! Input policies: which input set a node is shown next, or why there is none.
//! Answers to the definitions of `specs/Inbox.antt`.
#![tactic(auto)]

mod inbox;
pub mod laws;
mod look;
mod readiness;
mod selecting;
mod taking;

pub use inbox::Inbox;
pub use readiness::Readiness;
