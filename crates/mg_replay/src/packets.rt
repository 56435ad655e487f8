//! The lines of a recorded run that may be packet lines.
ghost use Rattle.std.specs.Prelude.{◌≡◌, ◌≢◌, Some, IfOk};
ghost use Rattle.mg_feed.specs.Form.{is_blank};
ghost use Rattle.mg_feed.specs.FeedSeen.{seen};
ghost use Rattle.mg_replay.specs.Opening.{may_say_packet};
ghost use Rattle.mg_replay.specs.Code.Packets.{ends_so, TakesPackets};

use crate::TraceFault;
use mg_feed::{Feed, LineFault};
use std::alloc::AllocError;

// Returns whether a byte is blank in a line.
fn is_blank(byte: u8) -> bool
    ensures { result ≡ is_blank byte }
{
    byte == b' ' || byte == b'\t' || byte == b'\r'
}

// Returns whether a line opens an object, perhaps after blanks, or is of blanks alone.
fn may_say_packet(line: &[u8]) -> bool
    ensures { result ≡ may_say_packet line.now }
{
    for byte in line {
        if !is_blank(*byte) {
            return *byte == b'{';
        }
    }
    true
}

/// Returns whether the input of a job ended well, if a line says that: true for `ended`, false for `frozen`.
pub fn end_word(line: &[u8]) -> Option<bool>
    ensures { result ≡ ends_so line.now }
{
    if line == b"ended".as_slice() {
        Some(true)
    } else if line == b"frozen".as_slice() {
        Some(false)
    } else {
        None
    }
}

/// Takes a line that stands where packet lines do, or returns why it isn't good.
pub fn take_packet(feed: &mut Feed, line: &[u8]) -> Result<Option<TraceFault>, AllocError>
    ensures { IfOk result (λ fault. TakesPackets fault line.now (seen feed.old) (seen feed.new)) }
{
    if !may_say_packet(line) {
        return Ok(Some(TraceFault::BadEvent));
    }
    match feed.recorded_line(line) {
        Ok(()) => Ok(None),
        Err(fault) => {
            let cause = refused(fault)?;
            Ok(cause)
        }
    }
}

// Returns why a line isn't good, or an error if memory ran out.
fn refused(fault: LineFault) -> Result<Option<TraceFault>, AllocError>
    ensures { IfOk result (λ cause. (cause ≡ Some (TraceFault.Line fault)) × (fault ≢ LineFault.OutOfMemory)) }
{
    if fault == LineFault::OutOfMemory {
        Err(AllocError)
    } else {
        Ok(Some(TraceFault::Line(fault)))
    }
}
