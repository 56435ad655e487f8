use mg_value::{BlockList, Kind, MgText};

/// Who writes a stream.
#[derive(Clone, Copy, Debug, PartialEq, Eq)]
pub enum Producer {
    /// The graph input of this number.
    Input(u32),
    /// A node, at its output of this number.
    Node { node: u32, port: u32 },
}

/// A stream of a plan.
#[derive(Debug, Drop)]
pub struct PlanStream {
    pub name: MgText,
    pub kind: Kind,
    pub producer: Producer,
}

/// Streams in order: the graph inputs, and then the outputs of each node by port.
pub type PlanStreamList = BlockList<PlanStream>;
