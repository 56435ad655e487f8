use mg_settled::InputSet;
use mg_time::Timestamp;
use mg_value::BlockList;

/// A call that a calculator has had.
#[derive(Debug, Drop)]
pub enum Call {
    /// The calculator was opened.
    Begun,
    /// The calculator was shown the set at a time.
    Shown { at: Timestamp, set: InputSet },
    /// The calculator was closed.
    Finished,
}

/// The calls that a calculator has had, in order.
pub type CallList = BlockList<Call>;
