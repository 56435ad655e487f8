//! Free nodes: the output of such a node depends on the order in which packets arrive.
//! Answers to the definitions of `specs/Free.antt`, `specs/Logs.antt` and `specs/Core.antt`; `specs/Rounds.antt` and
//! `specs/Turns.antt` say in what rounds free nodes take what arrives.
#![tactic(auto)]

mod core_parts;
mod core_streams;
mod kinds;
mod law;
pub mod laws;
mod node;
mod numbering;
mod output;
mod places;
mod plan;
mod splitting;
mod state;

pub use kinds::{first_free, is_free};
pub use law::FreeLaw;
pub use node::{FreeNode, FreeNodeList};
pub use plan::FreePlan;
pub use splitting::split;
pub use state::FreeState;
