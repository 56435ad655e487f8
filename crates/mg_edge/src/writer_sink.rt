ghost use Rattle.std.specs.Prelude.{◌≡◌};
ghost use Rattle.std.specs.Io.{WritesAtMost};
ghost use Rattle.std.specs.Io.KnownBytes.{WriteAppends};
ghost use Rattle.mg_edge.specs.Adapters.{writer_told};

use crate::{MOST_INTERRUPTIONS, Put, Sink};
use std::io;
use std::io::{ErrorKind, Write};

/// A writer of the standard library as a sink. It keeps nothing back: each call gives its piece to the writer. So give
/// it large pieces, and a writer without a buffer of its own: files and standard streams have none. It is trusted that
/// a file or a terminal keeps the bytes that it took. The sink tells what the writer tells: over a file or a terminal
/// that is nothing.
#[derive(Drop)]
pub struct WriterSink<W> {
    writer: W,
    faults: u64,
}

impl<W: Write + Drop> WriterSink<W> {
    /// Makes a sink over a writer, with no fault counted yet.
    pub fn new(writer: W) -> WriterSink<W>
        ensures { ⟦<WriterSink<W> as Sink>⟧.told result ≡ record { taken = W.contents writer; faults = 0 } }
    {
        WriterSink { writer, faults: 0 }
    }
}

impl<W: Write + Drop> Sink for WriterSink<W> {
    ghost told = { writer_told W.contents };

    fn write(&mut self, piece: &[u8]) -> Put {
        match write_uninterrupted(&mut self.writer, piece) {
            Ok(0) | Err(_) => {
                self.faults = self.faults.wrapping_add(1);
                Put::Failed
            }
            Ok(count) => Put::Took(count),
        }
    }
}

// Writes once, and again if a signal interrupted the write, up to `MOST_INTERRUPTIONS` times.
fn write_uninterrupted<W: Write>(writer: &mut W, piece: &[u8]) -> io::Result<usize>
    ensures bound { WritesAtMost result piece.now }
    ensures bytes { WriteAppends (W.contents writer.old) (W.contents writer.new) result piece.now }
{
    for _ in 0..MOST_INTERRUPTIONS {
        match writer.write(piece) {
            Err(error) if error.kind() == ErrorKind::Interrupted => {}
            answer => return answer,
        }
    }
    writer.write(piece)
}
