/// What a free node does with the packets that arrive (MediaPipe, Real-time Streams).
#[derive(Clone, Copy, Debug, PartialEq, Eq)]
pub enum FreeLaw {
    /// Each packet that can still be laid on the output is laid as it comes, and every other is dropped. `lanes` is the number of inputs.
    FirstCome { lanes: u32 },
    /// A packet of the first input is laid while fewer than `most` of the laid packets are unfinished, and is dropped otherwise. A
    /// packet of the second input, FINISHED, says that one of the laid packets is finished.
    Limiter { most: u32 },
}
