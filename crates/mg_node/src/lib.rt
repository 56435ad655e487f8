//! Cells: what waits at a node, and what works on it. Each node has an intake and an engine. The intake claims input sets. The engine holds
//! the node's calculator, the works that were claimed, and what was laid at the node's outputs. Answers to the definitions of
//! `specs/Lawful.antt`.
#![tactic(auto)]

mod at_once;
mod claimed;
mod context;
mod counting;
mod delivered;
mod delivery;
mod doing;
mod engine;
mod entry;
mod fronts;
mod intake;
mod laid;
pub mod laws;
mod laying;
mod leaving;
mod outcome;
mod parts;
mod pending;
mod performed;
mod raising;
mod replied;
mod role;
mod window;
mod work;

pub use at_once::AtOnce;
pub use claimed::Claimed;
pub use context::Context;
pub use delivered::Delivered;
pub use doing::perform;
pub use engine::Engine;
pub use intake::Intake;
pub use outcome::Outcome;
pub use pending::Pending;
pub use performed::Performed;
pub use role::Role;
pub use work::Work;
