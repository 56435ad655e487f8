ghost use Rattle.std.specs.Prelude.{◌≡◌, None};
ghost use Rattle.std.specs.Io.{ReadsAtMost};
ghost use Rattle.std.specs.Io.KnownBytes.{ReadConsumes};
ghost use Rattle.mg_edge.specs.Adapters.{reader_told};

use crate::{Got, MOST_INTERRUPTIONS, Source};
use std::io;
use std::io::{ErrorKind, Read};

/// A reader of the standard library as a source. It is trusted that a file or a terminal gives what is in it. The
/// source tells what the reader tells: over a file or a terminal that is nothing.
#[derive(Drop)]
pub struct ReaderSource<R> {
    reader: R,
    ends: u64,
    faults: u64,
}

impl<R: Read + Drop> ReaderSource<R> {
    /// Makes a source over a reader, with no end and no fault counted yet.
    pub fn new(reader: R) -> ReaderSource<R>
        ensures { ⟦<ReaderSource<R> as Source>⟧.told result ≡ record { left = R.remaining reader; reads = None; ends = 0; faults = 0; left_at_bytes = None; left_at_fault = None } }
    {
        ReaderSource {
            reader,
            ends: 0,
            faults: 0,
        }
    }
}

impl<R: Read + Drop> Source for ReaderSource<R> {
    ghost told = { reader_told R.remaining };

    fn read(&mut self, buf: &mut [u8]) -> Got {
        match read_uninterrupted(&mut self.reader, buf) {
            Ok(0) => {
                self.ends = self.ends.wrapping_add(1);
                Got::End
            }
            Ok(count) => Got::Bytes(count),
            Err(_) => {
                self.faults = self.faults.wrapping_add(1);
                Got::Failed
            }
        }
    }
}

// Reads once, and again if a signal interrupted the read, up to `MOST_INTERRUPTIONS` times.
fn read_uninterrupted<R: Read>(reader: &mut R, buf: &mut [u8]) -> io::Result<usize>
    ensures bound { ReadsAtMost result buf.new }
    ensures bytes { ReadConsumes (R.remaining reader.old) (R.remaining reader.new) result buf.new }
{
    for _ in 0..MOST_INTERRUPTIONS {
        match reader.read(buf) {
            Err(error) if error.kind() == ErrorKind::Interrupted => {}
            answer => return answer,
        }
    }
    reader.read(buf)
}
