//! Helpers of the test crates that drive cells and nets: plans and inputs of graphs that are written as texts, and shapes of
//! user-supplied calculators. The crate has no definitions of its own: its contracts give what the calls of the tests require.
#![tactic(auto)]

mod plans;
mod shapes;

pub use plans::{do_fit, inputs_of, plan_of};
pub use shapes::{port, shape_of};
