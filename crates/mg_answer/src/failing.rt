//! The notes of a call that ran out of memory, or whose text couldn't be written.
ghost use Rattle.std.specs.Prelude.{◌≡◌};
ghost use Rattle.mg_answer.specs.Devices.{device, TookNotes};
ghost use Rattle.mg_answer.specs.Notes.{write_note, memory_note};

use crate::Status;
use mg_edge::Sink;
use mg_feed::put_all;

/// The note that something couldn't be written.
pub const WRITE_NOTE: &[u8] = b"write fault\n";

/// The note that memory ran out.
pub const MEMORY_NOTE: &[u8] = b"out of memory\n";

/// Notes that a text couldn't be written, and returns the status that says so. The function allocates nothing.
pub fn note_write_fault<E: Sink>(notes: &mut E) -> Status
    ensures status { result ≡ Status.WriteFault }
    ensures noted { TookNotes (device (E.told notes.old) (E.told notes.new)) write_note }
{
    let _ = put_all(notes, WRITE_NOTE);
    Status::WriteFault
}

/// Notes that memory ran out, and returns the status that says so. The function allocates nothing.
pub fn note_out_of_memory<E: Sink>(notes: &mut E) -> Status
    ensures status { result ≡ Status.OutOfMemory }
    ensures noted { TookNotes (device (E.told notes.old) (E.told notes.new)) memory_note }
{
    let _ = put_all(notes, MEMORY_NOTE);
    Status::OutOfMemory
}
