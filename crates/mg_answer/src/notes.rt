//! The notes of a run, which are put line by line at a text's end.
ghost use Rattle.std.specs.Prelude.{◌≡◌, ◌<◌, ◌++◌, All, length, slice_index_or, OnOk};
ghost use Rattle.std.specs.List.{flat_map};
ghost use Rattle.mg_time.specs.Time.{pre_stream};
ghost use Rattle.mg_answer.specs.Notes as notes;
ghost use Rattle.mg_answer.specs.Report.{end_bounds};

use crate::Status;
use crate::failing::{MEMORY_NOTE, WRITE_NOTE};
use crate::pieces::{label_at, put, put_number, put_time};
use crate::set_lines::stream_name;
use crate::shown::put_shown;
use crate::words::{cause_name, line_refusal};
use mg_calc::{NodeFault, Phase, Plan};
use mg_feed::{FeedEnd, LineFault};
use mg_settled::StreamEnd;
use mg_time::Timestamp;
use std::alloc::AllocError;

/// Puts the note of how an input ended at a text's end, if a read failed or a line was refused. Otherwise it puts nothing.
pub fn put_end(text: &mut Vec<u8>, end: FeedEnd) -> Result<(), AllocError>
    ensures { OnOk result (text.new.items ≡ text.old.items ++ notes.end_note end) }
{
    match end {
        FeedEnd::Ended => Ok(()),
        FeedEnd::Failed { lines } => put_read_fault(text, lines),
        FeedEnd::Refused { line, cause } => put_refused(text, line, cause),
        FeedEnd::OutOfMemory => Ok(()),
    }
}

// Puts the note that a read failed after so many whole lines.
fn put_read_fault(text: &mut Vec<u8>, lines: u64) -> Result<(), AllocError>
    ensures { OnOk result (text.new.items ≡ text.old.items ++ notes.read_note lines) }
{
    put(text, b"read fault after line ")?;
    put_number(text, lines)?;
    put(text, b"\n")
}

// Puts the note that the line of a number was refused, and why.
fn put_refused(text: &mut Vec<u8>, line: u64, cause: LineFault) -> Result<(), AllocError>
    ensures { OnOk result (text.new.items ≡ text.old.items ++ notes.line_note line cause) }
{
    put(text, b"line ")?;
    put_number(text, line)?;
    put(text, b": ")?;
    put(text, line_refusal(cause).as_bytes())?;
    put(text, b"\n")
}

/// Puts the notes of nodes' faults at a text's end.
pub fn put_faults(text: &mut Vec<u8>, plan: &Plan, faults: &[NodeFault]) -> Result<(), AllocError>
    requires { All (λ fault. fault.node < length plan.now.nodes) faults.now }
    ensures { OnOk result (text.new.items ≡ text.old.items ++ flat_map (notes.fault_note plan.now) faults.now) }
{
    for fault in faults {
        put_fault(text, plan, *fault)?;
    }
    Ok(())
}

// Puts the note of a node's fault.
fn put_fault(text: &mut Vec<u8>, plan: &Plan, fault: NodeFault) -> Result<(), AllocError>
    requires { fault.node < length plan.now.nodes }
    ensures { OnOk result (text.new.items ≡ text.old.items ++ notes.fault_note plan.now fault) }
{
    put_node(text, plan, fault.node)?;
    put_phase(text, fault.phase)?;
    put(text, b": ")?;
    put(text, cause_name(fault.cause).as_bytes())?;
    put(text, b"\n")
}

// Puts the number and the label of the node that a note is about.
fn put_node(text: &mut Vec<u8>, plan: &Plan, node: u32) -> Result<(), AllocError>
    requires { node < length plan.now.nodes }
    ensures { OnOk result (text.new.items ≡ text.old.items ++ notes.node_text plan.now node) }
{
    put(text, b"node ")?;
    put_number(text, u64::from(node))?;
    put(text, b" ")?;
    put_shown(text, label_at(plan, node as usize).as_bytes())?;
    put(text, b": ")
}

// Puts the call in which a node failed: Open, a call of a source, Process or Close.
fn put_phase(text: &mut Vec<u8>, phase: Phase) -> Result<(), AllocError>
    ensures { OnOk result (text.new.items ≡ text.old.items ++ notes.phase_text phase) }
{
    match phase {
        Phase::Open => put(text, b"open"),
        Phase::Call(number) => {
            put(text, b"call ")?;
            put_number(text, number)
        }
        Phase::Process(time) => {
            put(text, b"process ")?;
            put_time(text, time)
        }
        Phase::Close => put(text, b"close"),
    }
}

/// Puts the line of an arrival at a free node at a text's end: the node's number, the port and the packet's timestamp.
pub fn put_arrival(
    text: &mut Vec<u8>,
    node: u32,
    port: u32,
    at: Timestamp,
) -> Result<(), AllocError>
    ensures { OnOk result (text.new.items ≡ text.old.items ++ notes.arrival_note node port at) }
{
    put(text, b"free ")?;
    put_number(text, u64::from(node))?;
    put(text, b" ")?;
    put_number(text, u64::from(port))?;
    put(text, b" ")?;
    put_time(text, at)?;
    put(text, b"\n")
}

/// Puts the notes of a status at a text's end: which streams stalled, that a write failed, or that memory ran out. Any other status
/// has no note.
pub fn put_status(
    text: &mut Vec<u8>,
    status: Status,
    plan: &Plan,
    ends: &[StreamEnd],
    stalled: &[u32],
) -> Result<(), AllocError>
    requires numbers { All (λ number. number < length ends.now) stalled.now }
    requires many { length ends.now ≡ length plan.now.streams }
    ensures { OnOk result (text.new.items ≡ text.old.items ++ notes.status_notes status plan.now (end_bounds ends.now) stalled.now) }
{
    match status {
        Status::Stalled => put_stalled(text, plan, ends, stalled),
        Status::WriteFault => put(text, WRITE_NOTE),
        Status::OutOfMemory => put(text, MEMORY_NOTE),
        _ => Ok(()),
    }
}

// Puts the notes of stalled streams.
fn put_stalled(
    text: &mut Vec<u8>,
    plan: &Plan,
    ends: &[StreamEnd],
    stalled: &[u32],
) -> Result<(), AllocError>
    requires numbers { All (λ number. number < length ends.now) stalled.now }
    requires many { length ends.now ≡ length plan.now.streams }
    ensures { OnOk result (text.new.items ≡ text.old.items ++ flat_map (notes.stall_note plan.now (end_bounds ends.now)) stalled.now) }
{
    for number in stalled {
        put_stall(text, plan, ends, *number)?;
    }
    Ok(())
}

// Puts the note of a stalled stream.
fn put_stall(
    text: &mut Vec<u8>,
    plan: &Plan,
    ends: &[StreamEnd],
    number: u32,
) -> Result<(), AllocError>
    requires there { number < length ends.now }
    requires many { length ends.now ≡ length plan.now.streams }
    ensures { OnOk result (text.new.items ≡ text.old.items ++ notes.stall_note plan.now (end_bounds ends.now) number) }
{
    put(text, b"stalled: ")?;
    put_shown(text, stream_name(plan, number).as_bytes())?;
    put(text, b" ")?;
    put_time(text, bound_at(ends, number))?;
    put(text, b"\n")
}

// Returns the bound of the stream of a number. `ends` says how far each stream has come.
fn bound_at(ends: &[StreamEnd], number: u32) -> Timestamp
    requires { number < length ends.now }
    ensures { result ≡ slice_index_or (end_bounds ends.now) number pre_stream }
{
    ends[number as usize].bound
}
