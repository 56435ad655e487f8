//! Nets that threads share: a net is shared by its parts, and put together of them again.
//! Answers to `specs/Shared.antt` and `specs/Became.antt`, and to the definitions of mg_sched and mg_turns.
#![tactic(auto)]

mod kept;
mod sharing;
mod unweaving;
mod weaving;

pub use kept::Kept;
pub use sharing::{Shared, share, unshare};
