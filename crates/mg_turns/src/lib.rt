//! Nets that threads share. The parts of a net lie in the slots of one table, and each call holds the turns of the parts that
//! it changes. Answers to the definitions of `specs/Rule.antt`.
#![tactic(auto)]

mod held;
mod layout;
mod memory;
mod part;
mod room;
mod rule;
mod running;
mod seat;
mod shared;
mod tried;
mod view;
mod way;

pub use layout::Layout;
pub use part::Part;
pub use seat::NetSeat;
pub use shared::SharedNet;
pub use tried::{Tried, TriedCommit, TriedShelf};
