use crate::FreeLaw;
use mg_value::{BlockList, NumberList};

/// A free node of a plan. Its output is a graph input of the plan's core.
#[derive(Debug, Drop)]
pub struct FreeNode {
    /// The node's number in the plan.
    pub node: u32,
    pub law: FreeLaw,
    /// For each input port the number of its stream in the core.
    pub inputs: NumberList,
    /// The number of the output stream in the core.
    pub output: u32,
}

/// Free nodes in the order of the plan.
pub type FreeNodeList = BlockList<FreeNode>;
