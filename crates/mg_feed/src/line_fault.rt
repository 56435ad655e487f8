ghost use Rattle.std.specs.Prelude.{◌≡◌};
ghost use Rattle.mg_feed.specs.declared.line_fault.LineFault.TheVariants.{OutOfMemory};

use mg_json::ValueFault;
use std::alloc::{AllocError, AllocFailed};
use thiserror::Error;

/// Why a line isn't good. If there are several causes, the first in the order of `specs/Accepted.antt` is returned.
#[derive(Clone, Copy, Debug, PartialEq, Eq, Error)]
pub enum LineFault {
    /// The line isn't JSON.
    #[error("it is no JSON")]
    NotJson,
    /// The line has none of the five forms of a packet line.
    #[error("it has none of the forms of a packet line")]
    BadShape,
    /// The line names a stream or a side packet that is no input of the graph.
    #[error("it names no input of the graph")]
    UnknownStream,
    /// No packet may carry the timestamp.
    #[error("no packet may carry the timestamp")]
    BadTimestamp,
    /// A packet stands below the bound of its stream.
    #[error("the packet stands below the bound of its stream")]
    NotAscending,
    /// A stream was closed by a line before.
    #[error("the stream was closed by a line before")]
    Closed,
    /// A payload isn't of its stream's kind.
    #[error("the payload isn't of the kind of its stream")]
    KindMismatch,
    /// A value stands for no payload, for this cause.
    #[error("{0}")]
    BadValue(ValueFault),
    /// The line has more than 1,048,576 bytes.
    #[error("it has more than 1048576 bytes")]
    TooLong,
    /// 4,000,000 lines come before the line.
    #[error("4000000 lines come before it")]
    TooManyLines,
    /// A side packet comes after a line that named a stream.
    #[error("a line before the side packet named a stream")]
    SideLate,
    /// The side packet came already, in a line before.
    #[error("the side packet came already")]
    SideTwice,
    /// A packet at PostStream isn't the only one of its stream.
    #[error("the packet at PostStream isn't the only one of its stream")]
    NotAlone,
    /// Out of memory. The line may be good.
    #[error("out of memory")]
    OutOfMemory,
}

impl From<AllocError> for LineFault {
    ghost from_gives = { λ _ e. e ≡ OutOfMemory };

    fn from(_error: AllocError) -> LineFault {
        LineFault::OutOfMemory
    }
}

impl<T: Drop> From<AllocFailed<T>> for LineFault {
    ghost from_gives = { λ _ e. e ≡ OutOfMemory };

    fn from(_error: AllocFailed<T>) -> LineFault {
        LineFault::OutOfMemory
    }
}
