//! Tests of sources, sinks and stores over the system, and of a slow sink: rows of calls with their answers.

ghost use Rattle.std.specs.Prelude.{IfOk, ◌≤◌};

use mg_edge::{
    FolderStore, Got, Loaded, MemorySink, Put, ReaderSource, Sink, Source, Store, WriterSink,
};
use mg_tables::{Calls, assert_rows};
use std::alloc::Global;
use std::io::{Cursor, ErrorKind, Read, Write};
use std::test::Fail;
use std::{fs, io};

// A reader and a writer that answers each call by its number: a signal interrupts two, then come one byte, no byte, and errors.
#[derive(Drop)]
struct Moody {
    calls: u8,
}

impl Moody {
    fn answer(&mut self, room: usize) -> io::Result<usize>
        ensures { IfOk result (λ count. count ≤ room) }
    {
        self.calls = self.calls.saturating_add(1);
        match self.calls {
            1 | 2 => Err(io::Error::from(ErrorKind::Interrupted)),
            3 => Ok(1.min(room)),
            4 => Ok(0),
            _ => Err(io::Error::from(ErrorKind::BrokenPipe)),
        }
    }
}

impl Read for Moody {
    fn read(&mut self, buf: &mut [u8]) -> io::Result<usize> {
        self.answer(buf.len())
    }
}

impl Write for Moody {
    fn write(&mut self, buf: &[u8]) -> io::Result<usize> {
        self.answer(buf.len())
    }

    fn flush(&mut self) -> io::Result<()> {
        Ok(())
    }
}

// Shows the answer of a read with room for so many bytes, from 1 to 8.
fn show_read(alloc: Global, source: &mut impl Source, room: usize) -> Result<String, Fail> {
    let mut buf = [0u8; 8];
    if room == 0 || room > 8 {
        return Err(Fail::from("no such room"));
    }
    match source.read(&mut buf[..room]) {
        Got::Bytes(count) => Ok(String::from_utf8(buf[..count].to_vec(alloc)?)?),
        Got::End => Ok(String::from_str(alloc, "End")?),
        Got::Failed => Ok(String::from_str(alloc, "Failed")?),
    }
}

// Shows the answer of a write.
fn show_write(alloc: Global, sink: &mut impl Sink, piece: &str) -> Result<String, Fail> {
    if piece.is_empty() {
        return Err(Fail::from("no piece"));
    }
    match sink.write(piece.as_bytes()) {
        Put::Took(count) => Ok(format!(in alloc; "{count}")?),
        Put::Failed => Ok(String::from_str(alloc, "Failed")?),
    }
}

// Shows the answer of a load. Of more than 8 bytes it shows how many they are.
fn show_load(alloc: Global, store: &mut impl Store, name: &str) -> Result<String, Fail> {
    match store.load(alloc, name) {
        Loaded::Bytes(bytes) if bytes.len() > 8 => Ok(format!(in alloc; "{}", bytes.len())?),
        Loaded::Bytes(bytes) => Ok(String::from_utf8(bytes)?),
        Loaded::Failed => Ok(String::from_str(alloc, "Failed")?),
        Loaded::OutOfMemory => Err(Fail::from("out of memory")),
    }
}

// The calls of a source, a sink or a store: the room of a read, the piece of a write, the name of a load.

#[derive(Drop)]
struct Reads<S>(S);

impl<S: Source + Drop> Calls for Reads<S> {
    fn answer(&mut self, alloc: Global, call: &str) -> Result<String, Fail> {
        show_read(alloc, &mut self.0, call.parse::<usize>()?)
    }
}

#[derive(Drop)]
struct Writes<S>(S);

impl<S: Sink + Drop> Calls for Writes<S> {
    fn answer(&mut self, alloc: Global, call: &str) -> Result<String, Fail> {
        show_write(alloc, &mut self.0, call)
    }
}

#[derive(Drop)]
struct Loads<S>(S);

impl<S: Store + Drop> Calls for Loads<S> {
    fn answer(&mut self, alloc: Global, call: &str) -> Result<String, Fail> {
        show_load(alloc, &mut self.0, call)
    }
}

fn write_long(rt: &impl fs::Files, alloc: Global, long: usize) -> Result<(), Fail> {
    Ok(fs::write(rt, "long", vec![in alloc; 7u8; long]?.as_slice())?)
}

#[test]
fn a_folder_gives_its_files(rt: HostRuntime) -> Result<(), Fail> {
    fs::write(&rt, "graph", "bytes")?;
    write_long(&rt, rt.alloc(), 4_194_306)?;
    let calls = "graph=bytes\nlong=4194305\nmissing=Failed\n.=Failed";
    assert_rows(
        rt.alloc(),
        &mut Loads(FolderStore::new(rt.alloc(), rt.clone()?)),
        calls,
    )?;
    fs::remove_file(&rt, "graph")?;
    fs::remove_file(&rt, "long")?;
    Ok(())
}

#[test]
fn a_reader_is_a_source(rt: HostRuntime) -> Result<(), Fail> {
    let mut source = Reads(ReaderSource::new(Cursor::new(b"abc".as_slice())));
    assert_rows(rt.alloc(), &mut source, "2=ab\n8=c\n8=End")?;
    let mut moody = Reads(ReaderSource::new(Moody { calls: 0 }));
    assert_rows(rt.alloc(), &mut moody, "1=\0\n8=End\n8=Failed")
}

#[test]
fn a_writer_is_a_sink(rt: HostRuntime) -> Result<(), Fail> {
    let mut sink = Writes(WriterSink::new(Vec::new(rt.alloc())));
    assert_rows(rt.alloc(), &mut sink, "abc=3")?;
    let mut moody = Writes(WriterSink::new(Moody { calls: 0 }));
    assert_rows(rt.alloc(), &mut moody, "abc=1\nabc=Failed\nabc=Failed")
}

#[test]
fn a_slow_sink_takes_little(rt: HostRuntime) -> Result<(), Fail> {
    let mut sink = Writes(MemorySink::slow(rt.alloc(), 3, 2, &[1])?);
    assert_rows(rt.alloc(), &mut sink, "abc=2\nc=Failed\ncd=1\nd=Failed")
}
