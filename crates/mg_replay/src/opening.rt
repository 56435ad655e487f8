//! How the lines of a recorded run's job are read.
ghost use Rattle.std.specs.Prelude.{◌≡◌, ◌+◌, ◌<◌, ◌^◌, None, IfOk};
ghost use Rattle.mg_calc.specs.Rules.{Laws};
ghost use Rattle.mg_edge.specs.Edge.{SourceTold};
ghost use Rattle.mg_calc.specs.declared.plan.Plan.{Plan};
ghost use Rattle.mg_feed.specs.FeedSeen.{seen};
ghost use Rattle.mg_feed.specs.LinesSeen.{reading, number_of};
ghost use Rattle.mg_replay.specs.Reading.{IsOpening, IsSomeOpening, Opens};
ghost use Rattle.mg_replay.specs.Code.Reading.{StopsBy, TakesOther, TakesLine, OpensOn};

use crate::packets::{end_word, take_packet};
use crate::{TraceEnd, TraceFault};
use mg_edge::Source;
use mg_feed::{Feed, Lines, NextLine};
use std::alloc::AllocError;

/// The result of reading a job's lines.
#[derive(Clone, Copy)]
pub enum Opened {
    /// The job's packet lines have ended, and its input ended well (`true`) or is frozen (`false`).
    Job(bool),
    /// The reading stopped.
    Stopped(TraceEnd),
}

/// Returns how the reading stops after `lines` lines, if no further line is handed out. A line that is too long is the line of no event.
pub fn stopped_at(next: NextLine, lines: u64) -> Option<TraceEnd>
    requires { lines + 1 < 2 ^ 64 }
    ensures { StopsBy next lines result }
{
    match next {
        NextLine::Line => None,
        NextLine::TooLong => Some(TraceEnd::Refused {
            line: lines + 1,
            cause: TraceFault::BadEvent,
        }),
        NextLine::Ended => Some(TraceEnd::Refused {
            line: lines + 1,
            cause: TraceFault::NoEnd,
        }),
        NextLine::Failed => Some(TraceEnd::Failed { lines }),
    }
}

/// Reads the lines of a recorded run's job: packet lines, which a feed takes, up to the line `ended` or `frozen`.
///
/// Returns which of the two lines it was, or how the reading stopped. The first line that is neither of the two and no good packet
/// line is refused, with its number. Packet lines may have any length, and any number of them may come. The limits of an input are
/// for what a user writes. Memory alone limits what a recorded job holds. The reading also stops if the lines end or a read fails.
///
/// It leaves the feed with what the packet lines gave, and `lines` after the line that ended them. If the reading stopped, or
/// memory ran out, neither of the two is of further use.
pub fn read_job<S: Source>(
    feed: &mut Feed,
    lines: &mut Lines,
    input: &mut S,
) -> Result<Opened, AllocError>
    requires { IsSomeOpening (S.told input.old) (reading lines.old) (number_of lines.old) (seen feed.old) }
    ensures { IfOk result (λ opened. (laws : Laws) (plan : Plan) (first : SourceTold) → IsOpening plan first (S.told input.old) (reading lines.old) (number_of lines.old) (seen feed.old)
        → Opens laws opened plan first (S.told input.new) (reading lines.new) (number_of lines.new) (seen feed.new)) }
{
    'packets: loop {
        let read = next_packet(feed, lines, input)?;
        match read {
            Some(opened) => return Ok(opened),
            None => {}
        }
    }
}

// Reads the next line, and takes it if it is a packet line. Returns the result of the reading, if it ends there.
fn next_packet<S: Source>(
    feed: &mut Feed,
    lines: &mut Lines,
    input: &mut S,
) -> Result<Option<Opened>, AllocError>
    requires { IsSomeOpening (S.told input.old) (reading lines.old) (number_of lines.old) (seen feed.old) }
    ensures opens { IfOk result (λ opened. (laws : Laws) (plan : Plan) (first : SourceTold) → IsOpening plan first (S.told input.old) (reading lines.old) (number_of lines.old) (seen feed.old)
        → OpensOn laws opened plan first (S.told input.new) (reading lines.new) (number_of lines.new) (seen feed.new)) }
    ensures more { IfOk result (λ opened. opened ≡ None → (number_of lines.old < number_of lines.new) × (number_of lines.new < 2 ^ 64)) }
{
    let before = lines.number();
    let next = lines.next(input, usize::MAX)?;
    match stopped_at(next, before) {
        Some(end) => Ok(Some(Opened::Stopped(end))),
        None => {
            let opened = take_line(feed, lines.line(), lines.number())?;
            Ok(opened)
        }
    }
}

// Takes the line of this number, if it is a packet line, and returns the result of the reading if it isn't.
fn take_line(feed: &mut Feed, line: &[u8], number: u64) -> Result<Option<Opened>, AllocError>
    ensures { IfOk result (λ opened. TakesLine opened line.now number (seen feed.old) (seen feed.new)) }
{
    match end_word(line) {
        Some(ended) => Ok(Some(Opened::Job(ended))),
        None => {
            let opened = take_other(feed, line, number)?;
            Ok(opened)
        }
    }
}

// Takes a line that doesn't end the packet lines, or refuses it.
fn take_other(feed: &mut Feed, line: &[u8], number: u64) -> Result<Option<Opened>, AllocError>
    ensures { IfOk result (λ opened. TakesOther opened line.now number (seen feed.old) (seen feed.new)) }
{
    let refusal = take_packet(feed, line)?;
    match refusal {
        Some(cause) => Ok(Some(Opened::Stopped(TraceEnd::Refused {
            line: number,
            cause,
        }))),
        None => Ok(None),
    }
}
