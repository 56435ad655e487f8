/// How far a node's next work came. The work is claimed, performed and committed at once.
#[derive(Clone, Copy, Debug, PartialEq, Eq)]
pub enum Reached {
    /// There was no work to claim.
    Nothing,
    /// There was no memory to claim the work.
    NotClaimed,
    /// The work was a loopback's answer, which is laid as it is claimed.
    Answered,
    /// The work is claimed, and there was no memory to perform it.
    Claimed,
    /// The work of this number is performed, and there was no memory to commit it.
    Performed(u64),
    /// The work of this number is committed.
    Committed(u64),
}
