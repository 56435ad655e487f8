/// How an engine comes by its works.
#[derive(Clone, Copy, Debug, PartialEq, Eq)]
pub enum Role {
    /// An engine without works: its one output is a graph input.
    Input,
    /// A source: its calculator is called this number of times.
    Source { calls: u32 },
    /// A loopback: each packet of MAIN is answered at once.
    Loop,
    /// A calculator that is shown the node's input sets.
    Sets,
}
