use mg_calc::NodeFaultList;
use mg_settled::StreamEnd;
use mg_value::CountList;

/// What a run tells of its nodes and streams in the notes and in the report, by the numbers of its plan.
#[derive(Drop)]
pub struct Outcomes {
    /// The faults of the nodes that failed, in node order.
    pub faults: NodeFaultList,
    /// A count for each node: how many sets it was shown. For a source it is how often it was called, and for a loopback how many
    /// packets of MAIN it answered. For a free node it is how many packets arrived at it. The set or call that failed is counted
    /// too.
    pub sets: CountList,
    /// How far each stream has come, in stream order.
    pub ends: Vec<StreamEnd>,
    /// The text of the lines of all arrivals at free nodes.
    pub arrivals: Vec<u8>,
}
