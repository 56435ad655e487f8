/// A list of names in a draft: those of one kind of ports of the node.
#[derive(Clone, Copy, Debug, PartialEq, Eq)]
pub(crate) enum Part {
    /// The streams that the node reads.
    Inputs,
    /// The streams that the node writes.
    Outputs,
    /// The side packets that the node takes.
    Sides,
    /// The side packets that the node writes.
    SideOutputs,
}
