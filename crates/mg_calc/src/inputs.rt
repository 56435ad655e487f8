use crate::GivenList;
use mg_settled::PrefixList;

/// What the caller gives a graph: its input streams, as far as they are known, and its side packets.
#[derive(Debug, Drop)]
pub struct Inputs {
    /// For each graph input what is known of its stream.
    pub streams: PrefixList,
    /// The side packets that the caller gives, by their places.
    pub sides: GivenList,
    /// Whether all inputs have come.
    pub ended: bool,
}
