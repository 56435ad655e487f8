/// What a delivery did.
#[derive(Clone, Copy, Debug, PartialEq, Eq)]
pub enum Delivered {
    /// This many packets came, and `raised` says whether the port's bound rose after them.
    Moved { packets: u32, raised: bool },
    /// Out of memory for a further packet; this many packets came before it.
    OutOfMemory { packets: u32 },
}
