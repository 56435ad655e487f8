//! An order of nodes, and a set of those that may run. Of these the last in the order goes first.
#![tactic(auto)]

mod bits;
mod links;
mod order;
mod places;
mod ready;

pub use order::Order;
pub use ready::Ready;
