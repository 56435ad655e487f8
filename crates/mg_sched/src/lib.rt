//! Nets: the cells of a graph, joined by its edges, and driven by events on one thread.
//! Answers to the definitions of `specs/StandsFor.antt` and `specs/Acts.antt`.
#![tactic(auto)]

mod agenda;
mod boxes;
mod hears;
pub mod laws;
mod net;
mod net_parts;
mod parts;
mod reached;
mod report;
pub mod run_laws;
mod sources;
mod tables;
mod work_queue;

pub use hears::{Deaf, Hears};
pub use net::{IndexedPlan, Net, NetRest};
pub use net_parts::NetParts;
pub use report::Report;
