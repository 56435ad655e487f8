use crate::Work;
use mg_calc::NodeCalculator;

/// What a claim gives. If more than one of these holds, `Engine::claim` says which is given.
#[derive(Drop)]
pub enum Claimed<C: NodeCalculator> {
    /// A work: a work that came back unrun, or the next set, call or Close.
    Work(Work<C>),
    /// The loopback has answered the next packet of MAIN.
    Answered,
    /// Neither a set nor the end can be told yet.
    NotReady,
    /// As many works are claimed as may be.
    InFlightFull,
    /// No set comes any more, and the works that were claimed have to be laid before Close.
    Draining,
    /// The node has failed, or closed.
    Ended,
    /// Out of memory: nothing has changed.
    OutOfMemory,
}
