use crate::{Law, Shape};
use mg_value::{BlockList, MgText, NumberList, Policy};

/// A node of a plan.
#[derive(Debug, Drop)]
pub struct PlanNode {
    /// The node's name, or its calculator's if it has none.
    pub label: MgText,
    pub law: Law,
    pub shape: Shape,
    /// For each input port the number of its stream.
    pub inputs: NumberList,
    /// For each output port the number of its stream.
    pub outputs: NumberList,
    /// For each side port the number of its side packet.
    pub sides: NumberList,
    /// How many sets may be worked on at once, from 1 to 64.
    pub in_flight: u32,
    /// The number of the user-supplied calculator that does the work, if one does.
    pub box_number: Option<u32>,
    /// Which sets are settled, and what is in one.
    pub policy: Policy,
}

/// Nodes in the order of the graph.
pub type PlanNodeList = BlockList<PlanNode>;
