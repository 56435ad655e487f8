use mg_value::BlockList;

/// A way from a stream to a port of its consumer: a node, or the collector, whose ports are the graph's outputs.
#[derive(Clone, Copy, Debug, PartialEq, Eq)]
pub struct Edge {
    /// The stream's number.
    pub stream: u32,
    /// The consumer's number: a node's, or for the collector the count of nodes.
    pub node: u32,
    /// The consumer's port, from 0 on.
    pub port: u32,
    /// Whether this is a back edge, which closes a loop and is left out of the order of nodes.
    pub back: bool,
}

/// Edges in the order of their consumers' numbers, and then of their ports.
pub type EdgeList = BlockList<Edge>;
