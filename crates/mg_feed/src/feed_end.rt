use crate::LineFault;

/// How the reading of an input ended.
#[derive(Clone, Copy)]
pub enum FeedEnd {
    /// The source answered `End`, and all lines are good.
    Ended,
    /// A read failed. `lines` lines were whole before it, and all of them are good.
    Failed { lines: u64 },
    /// The line of number `line`, counted from 1, is the first that isn't good, for this cause.
    Refused { line: u64, cause: LineFault },
    /// Out of memory. The lines that were accepted so far are kept, and a further call goes on after them.
    OutOfMemory,
}

/// How a batch of lines ended.
#[derive(Clone, Copy)]
pub enum BatchEnd {
    /// The batch has as many lines that name a stream as it may. More lines may come after it.
    More,
    /// The reading of the input ended in this way.
    End(FeedEnd),
}

/// The result of the next step of a reading.
#[derive(Clone, Copy)]
pub enum Step {
    /// A line was accepted. True if it names a stream.
    Line(bool),
    /// A read gave more bytes, or met the end.
    Read,
    /// The reading stops.
    Stop(FeedEnd),
}
