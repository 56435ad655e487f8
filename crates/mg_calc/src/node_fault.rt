use crate::Cause;
use mg_time::Timestamp;
use mg_value::BlockList;

/// When a node failed.
#[derive(Clone, Copy, Debug, PartialEq, Eq)]
pub enum Phase {
    /// In Open.
    Open,
    /// At a source's call of this number, from 0 on.
    Call(u64),
    /// At the set of this time.
    Process(Timestamp),
    /// In Close.
    Close,
}

/// The fault of a node: when it failed, and why.
#[derive(Clone, Copy, Debug, PartialEq, Eq)]
pub struct NodeFault {
    pub node: u32,
    pub phase: Phase,
    pub cause: Cause,
}

/// Faults in node order.
pub type NodeFaultList = BlockList<NodeFault>;
