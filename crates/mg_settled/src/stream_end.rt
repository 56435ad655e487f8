use mg_time::Timestamp;
use mg_value::BlockList;

/// How far a stream has come.
#[derive(Clone, Copy, Debug, PartialEq, Eq)]
pub struct StreamEnd {
    /// How many packets it has, those that were given up included.
    pub packets: u64,
    /// The lowest timestamp that a further packet may have.
    pub bound: Timestamp,
}

/// How far each stream has come, by the streams' numbers.
pub type StreamEndList = BlockList<StreamEnd>;
