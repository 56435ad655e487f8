use mg_loopback::Loopback;
use mg_policy::Inbox;

/// What waits at a node: packets for its input sets, or those of a loopback.
#[derive(Debug, Drop)]
pub enum Pending {
    /// What waits for the input sets of a node or of the collector.
    Sets(Inbox),
    /// What waits at a loopback.
    Loop(Loopback),
}
