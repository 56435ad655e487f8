use mg_time::Timestamp;

/// What a node may do next with what waits at its inputs.
#[derive(Clone, Copy, Debug, PartialEq, Eq)]
pub enum Readiness {
    /// There is an input set at this timestamp.
    Ready { at: Timestamp },
    /// No input set comes any more: nothing waits at a port that leads (under Mux, at SELECT), and no packet comes there any more.
    Close,
    /// Whether a set comes, or none any more, can't be told yet.
    NotReady,
}
