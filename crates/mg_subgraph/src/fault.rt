ghost use Rattle.std.specs.Prelude.{◌≡◌};
ghost use Rattle.mg_subgraph.specs.declared.fault.ExpandFault.TheVariants.{OutOfMemory};

use mg_names::Port;
use mg_value::MgText;
use std::alloc::{AllocError, AllocFailed};
use thiserror::Error;

/// Why a graph isn't expanded. An owner is `main`, or the type of a file; a node is named by its number in its owner,
/// from 0 on. Nothing is made, and the graph and the files stay as they are.
#[derive(Debug, Drop, Error)]
pub enum ExpandFault {
    /// Two files have the same type.
    #[error("two files have the type {}", .name.as_str())]
    TypeTwice {
        name: MgText,
    },
    /// A file that is used uses itself, directly or not.
    #[error("the type {} uses itself", .name.as_str())]
    Recursive {
        name: MgText,
    },
    /// There would be more than 4,096 nodes.
    #[error("there are too many nodes")]
    TooManyNodes,
    /// There is a subgraph node, and the graph or a used file has a reserved name. Such a name begins with `s`, digits
    /// and `__`, like the names that expansion makes.
    #[error("the name {} is reserved", .name.as_str())]
    ReservedName {
        name: MgText,
    },
    /// A name stands at two ports of a used file, so a node that uses the file could connect it twice.
    #[error("the name {} stands at two ports of {}", .name.as_str(), .owner.as_str())]
    PortShared {
        owner: MgText,
        name: MgText,
    },
    /// A subgraph node has a field that only calculators have.
    #[error("node {node} of {} has the field {}", .owner.as_str(), .field.as_str())]
    BadField {
        owner: MgText,
        node: u32,
        field: MgText,
    },
    /// A subgraph node connects a port that its file hasn't.
    #[error("node {node} of {} connects a port that its file lacks", .owner.as_str())]
    NoSuchPort {
        owner: MgText,
        node: u32,
        port: Port,
    },
    /// There was no memory.
    #[error("out of memory")]
    OutOfMemory,
}

impl From<AllocError> for ExpandFault {
    ghost from_gives = { λ _ e. e ≡ OutOfMemory };

    fn from(_error: AllocError) -> ExpandFault {
        ExpandFault::OutOfMemory
    }
}

impl<T: Drop> From<AllocFailed<T>> for ExpandFault {
    ghost from_gives = { λ _ e. e ≡ OutOfMemory };

    fn from(_error: AllocFailed<T>) -> ExpandFault {
        ExpandFault::OutOfMemory
    }
}
