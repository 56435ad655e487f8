use mg_calc::{Law, Shape};
use mg_value::{MgText, Payload, Policy};
use std::sync::Arc;

/// A node of a plan before its streams and side packets have numbers: the names at its ports stand in the order of its
/// shape.
#[derive(Debug, Drop)]
pub struct Draft<'a> {
    pub label: MgText,
    pub law: Law,
    pub shape: Shape,
    pub inputs: Vec<&'a str>,
    pub outputs: Vec<&'a str>,
    pub sides: Vec<&'a str>,
    /// The names of the side packets that the node writes.
    pub side_outputs: Vec<&'a str>,
    /// The payloads of the side packets that the node writes, in the same order.
    pub constants: Vec<Arc<Payload>>,
    /// How many input sets the node may work on at once, 1 to 64.
    pub in_flight: u32,
    /// The number of the node's calculator among the user-supplied calculators, if it is one of these.
    pub box_number: Option<u32>,
    pub policy: Policy,
    /// The number of the input that is marked as a back edge, if a mark stands where a back edge may be.
    pub back: Option<u32>,
    /// Whether a mark stands at an input that can't be a back edge, or at an input that the node hasn't.
    pub misplaced: bool,
}
