use mg_calc::NodeFaultList;
use mg_settled::StreamEndList;
use mg_value::CountList;

/// How far a net has come.
#[derive(Debug, Drop)]
pub struct Report {
    /// For each node, how many of its sets were laid: of a source its calls, and of a loopback its answers.
    pub sets: CountList,
    /// For each stream, how many packets were laid on it, and its bound.
    pub streams: StreamEndList,
    /// The faults of the nodes that have stopped, in node order.
    pub faults: NodeFaultList,
}
