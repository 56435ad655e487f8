use mg_value::Packet;
use thiserror::Error;

/// Why a queue refuses a packet. If more than one of these holds, the first is the cause.
#[derive(Clone, Copy, Debug, PartialEq, Eq, Drop, Error)]
pub enum StreamFault {
    /// No packet may carry this timestamp.
    #[error("no packet may carry this timestamp")]
    NotAllowed = 1,
    /// The timestamp is below the bound.
    #[error("the timestamp is below the bound")]
    NotAscending = 2,
    /// The packet stands at PostStream and isn't the only one of its stream.
    #[error("a packet at PostStream must be alone")]
    NotAlone = 3,
    /// There is no memory for the packet.
    #[error("out of memory")]
    OutOfMemory = 4,
}

/// A packet that was refused, and why.
#[derive(Debug, Drop)]
pub struct Refused {
    pub packet: Packet,
    pub cause: StreamFault,
}
