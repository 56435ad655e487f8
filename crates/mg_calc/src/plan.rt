use crate::{EdgeList, PlanNodeList, PlanStreamList, SideList};
use mg_value::NumberList;

/// A graph by numbers, as it is run: its nodes, streams, edges and side packets, and an order of its nodes.
#[derive(Debug, Drop)]
pub struct Plan {
    pub nodes: PlanNodeList,
    pub streams: PlanStreamList,
    pub edges: EdgeList,
    /// The numbers of the nodes, each once, so that all edges but back edges lead forward.
    pub order: NumberList,
    /// The numbers of the streams that are the graph's inputs.
    pub inputs: NumberList,
    /// The numbers of the streams that are the graph's outputs.
    pub outputs: NumberList,
    /// The side packets of the graph, which nodes name by their numbers.
    pub sides: SideList,
    /// How many packets a queue holds before its feeders are throttled; below 0 there is no limit.
    pub limit: i32,
    /// How many workers run the graph.
    pub workers: u32,
}
