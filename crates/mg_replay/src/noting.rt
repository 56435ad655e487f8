//! The one note of a recorded run that isn't accepted.
ghost use Rattle.std.specs.Prelude.{◌≡◌, ◌++◌, codes, decimal, IfOk, OnOk, OnErr};
ghost use Rattle.mg_answer.specs.Devices.{device};
ghost use Rattle.mg_replay.specs.Note.{trace_note, trace_status, WroteNote};

use crate::{TraceEnd, TraceFault};
use mg_answer::{Status, put_end, put_number};
use mg_edge::Sink;
use mg_feed::{FeedEnd, put_all};
use std::alloc::{AllocError, Global};

/// Writes the note of how the reading of a recorded run ended, if the run isn't accepted. Returns the status of that end, or
/// `WriteFault` if a write failed. If memory runs out, nothing was written.
pub fn note_end<E: Sink>(alloc: Global, end: TraceEnd, notes: &mut E) -> Result<Status, AllocError>
    ensures wrote { IfOk result (λ status. WroteNote end status (device (E.told notes.old) (E.told notes.new))) }
    ensures unnoted { OnErr result (E.told notes.new ≡ E.told notes.old) }
{
    let mut text = Vec::new(alloc);
    put_note(&mut text, end)?;
    if put_all(notes, &text) {
        Ok(status_of(end))
    } else {
        Ok(Status::WriteFault)
    }
}

// Returns the status of a recorded run whose reading ended like this.
fn status_of(end: TraceEnd) -> Status
    ensures { result ≡ trace_status end }
{
    match end {
        TraceEnd::Accepted => Status::Good,
        TraceEnd::Refused { .. } => Status::LineRefused,
        TraceEnd::Failed { .. } => Status::ReadFault,
    }
}

// Puts the note of how the reading ended at a text's end.
fn put_note(text: &mut Vec<u8>, end: TraceEnd) -> Result<(), AllocError>
    ensures { OnOk result (text.new.items ≡ text.old.items ++ trace_note end) }
{
    match end {
        TraceEnd::Accepted => Ok(()),
        TraceEnd::Refused { line, cause } => put_refused(text, line, cause),
        TraceEnd::Failed { lines } => put_end(text, FeedEnd::Failed { lines }),
    }
}

// Puts the note of a refused line at a text's end.
fn put_refused(text: &mut Vec<u8>, line: u64, cause: TraceFault) -> Result<(), AllocError>
    ensures { OnOk result (text.new.items ≡ text.old.items ++ trace_note (TraceEnd.Refused line cause)) }
{
    match cause {
        TraceFault::Line(cause) => put_end(text, FeedEnd::Refused { line, cause }),
        TraceFault::BadEvent => put_word(text, line, b"BadEvent"),
        TraceFault::IdleEvent => put_word(text, line, b"IdleEvent"),
        TraceFault::NotAtRest => put_word(text, line, b"NotAtRest"),
        TraceFault::NoEnd => put_word(text, line, b"NoEnd"),
        TraceFault::AfterEnd => put_word(text, line, b"AfterEnd"),
    }
}

// Puts the note of a line and the word for its fault at a text's end.
fn put_word(text: &mut Vec<u8>, line: u64, word: &[u8]) -> Result<(), AllocError>
    ensures { OnOk result (text.new.items ≡ text.old.items ++ (codes "line " ++ (decimal line ++ (codes ": " ++ (word.now ++ codes "\n"))))) }
{
    text.extend_from_slice(b"line ")?;
    put_number(text, line)?;
    text.extend_from_slice(b": ")?;
    text.extend_from_slice(word)?;
    text.extend_from_slice(b"\n")
}
