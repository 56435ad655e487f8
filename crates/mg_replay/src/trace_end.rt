use mg_feed::LineFault;

/// Why a line of a recorded run is refused.
#[derive(Clone, Copy, Debug, PartialEq, Eq)]
pub enum TraceFault {
    /// The line stands where packet lines do, and isn't a good packet line.
    Line(LineFault),
    /// The line isn't that of an event of the plan, or it stands where packet lines do and opens no object.
    BadEvent,
    /// The line's event does nothing.
    IdleEvent,
    /// The line is the last one of a run, `end`, and some event would still do something.
    NotAtRest,
    /// The lines end before the last line of a run.
    NoEnd,
    /// The line stands after the last line of a run.
    AfterEnd,
}

/// How the reading of a recorded run ended.
#[derive(Clone, Copy, Debug, PartialEq, Eq)]
pub enum TraceEnd {
    /// The events are a run of the job to rest, and nothing stands after the line `end`.
    Accepted,
    /// The line of this number, counted from 1, is refused for this cause.
    Refused { line: u64, cause: TraceFault },
    /// A read failed. `lines` lines were whole before it, and none of them is refused.
    Failed { lines: u64 },
}
