/// An event of a run: a step, with the edge or node at which it is made.
#[derive(Clone, Copy, Debug, PartialEq, Eq)]
pub enum Event {
    /// A stream's packets and bound are delivered along an edge.
    Deliver { edge: u32 },
    /// A node's outputs are raised as far as what waits at its inputs tells.
    Advance { node: u32 },
    /// A node's next work is claimed: a set, a source's call or Close. The next answer of a loopback is laid at once.
    Claim { node: u32 },
    /// A claimed work is performed: the calculator is called.
    Perform { node: u32, number: u64 },
    /// A performed work is committed: it comes back, and what is at the front of the node's window is laid.
    Commit { node: u32, number: u64 },
    /// The limits of full queues are relaxed.
    Relax,
}

/// What came of a step.
#[derive(Clone, Copy, Debug, PartialEq, Eq)]
pub enum Effect {
    /// The step was made.
    Did,
    /// There was nothing to do.
    Idle,
    /// The step was out of memory.
    OutOfMemory,
}
