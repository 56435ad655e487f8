use crate::{MgText, PayloadList, RecordList};

/// The value of a packet: it never changes, and packets that are copied share it (MediaPipe, Packets).
#[cycle(payload)]
#[derive(Debug, Drop)]
pub enum Payload {
    /// A truth value.
    Flag(bool),
    /// A whole number.
    Int(i64),
    /// A text.
    Text(MgText),
    /// Payloads in order.
    Items(PayloadList),
    /// Payloads by their keys.
    Record(RecordList),
}
