use mg_time::Timestamp;

/// What a stream's next line is judged by: the stream's bound, and whether a packet came to it (`begun`).
#[derive(Clone, Copy)]
pub struct Standing {
    pub bound: Timestamp,
    pub begun: bool,
}
