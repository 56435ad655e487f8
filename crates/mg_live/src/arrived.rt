use mg_time::Timestamp;

/// An arrival as a log has it: the port at which a packet arrived, and the packet's timestamp.
#[derive(Clone, Copy, Debug)]
pub struct Arrived {
    pub port: u32,
    pub at: Timestamp,
}
