use mg_time::Timestamp;
use mg_value::Packet;

/// What a loopback answers to the next packet of MAIN.
#[derive(Debug, Drop)]
pub enum Answered {
    /// The packet that LOOP had at the time of the packet of MAIN before this one, with this one's timestamp.
    Packet(Packet),
    /// LOOP had nothing there: the packet of MAIN at this timestamp is answered with nothing.
    Silent { at: Timestamp },
    /// No packet of MAIN waits, or LOOP may still get a packet at the time of the packet of MAIN before it.
    NotYet,
}
