ghost use Rattle.std.specs.Prelude.{◌≡◌};
ghost use Rattle.mg_check.specs.declared.fault.CheckFault.TheVariants.{OutOfMemory};

use mg_value::{MgText, NumberList};
use std::alloc::{AllocError, AllocFailed};
use thiserror::Error;

/// What a graph may have too many of.
#[derive(Clone, Copy, Debug, PartialEq, Eq)]
pub enum Many {
    /// More than 16,384 edges.
    Edges,
    /// More than 256 graph outputs.
    Outputs,
}

/// Why a graph has no plan. A node is named by its number in the expanded graph, from 0 on. Nothing is made, and the
/// graph stays as it is.
#[derive(Debug, Drop, Error)]
pub enum CheckFault {
    /// The calculator is neither built in nor user-supplied.
    #[error("node {node} has an unknown calculator")]
    UnknownCalculator { node: u32 },
    /// `needs` nodes want a calculator of this name, and only `has` user-supplied calculators have this name.
    #[error("{needs} nodes want one of {has} calculators {}", .name.as_str())]
    NoMoreBoxes { name: MgText, has: u32, needs: u32 },
    /// The streams or side packets of a node don't fit its calculator.
    #[error("the ports of node {node} don't fit its calculator")]
    BadPorts { node: u32 },
    /// The options of a node aren't those of its calculator.
    #[error("the options of node {node} aren't those of its calculator")]
    BadOptions { node: u32 },
    /// A node asks for an input policy that it can't have.
    #[error("node {node} can't have its {}", .field.as_str())]
    Unsupported { node: u32, field: MgText },
    /// Two of the graph's inputs and the nodes' outputs write the same stream, or two likewise the same side packet.
    #[error("{} has two producers", .name.as_str())]
    TwoProducers { name: MgText },
    /// A stream is read that is no graph input and no output of a node.
    #[error("the stream {} has no producer", .name.as_str())]
    NoProducer { name: MgText },
    /// A side packet is taken that is no input side packet of the graph and that no node writes.
    #[error("the side packet {} has no producer", .name.as_str())]
    SideMissing { name: MgText },
    /// Two ports of different kinds other than `Any` meet at a stream.
    #[error("two kinds meet at the stream {}", .name.as_str())]
    KindClash { name: MgText },
    /// A back edge stands elsewhere than at LOOP of a loopback or FINISHED of a limiter.
    #[error("node {node} has a back edge that isn't a loopback's")]
    BackEdgeMisplaced { node: u32 },
    /// These nodes wait for each other, or for a node that does: each reads, by an edge that isn't back, what one of them
    /// writes. No larger set of nodes does; the numbers ascend.
    #[error("nodes wait for each other")]
    Cycle { nodes: NumberList },
    /// There are too many edges or graph outputs.
    #[error("there are too many")]
    TooMany { what: Many },
    /// There was no memory.
    #[error("out of memory")]
    OutOfMemory,
}

impl From<AllocError> for CheckFault {
    ghost from_gives = { λ _ e. e ≡ OutOfMemory };

    fn from(_error: AllocError) -> CheckFault {
        CheckFault::OutOfMemory
    }
}

impl<T: Drop> From<AllocFailed<T>> for CheckFault {
    ghost from_gives = { λ _ e. e ≡ OutOfMemory };

    fn from(_error: AllocFailed<T>) -> CheckFault {
        CheckFault::OutOfMemory
    }
}
