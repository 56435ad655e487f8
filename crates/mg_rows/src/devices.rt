//! The devices of a call, all in memory.

ghost use Rattle.std.specs.Prelude.{None};

use crate::call::Asked;
use crate::choice::input_of;
use crate::member::{list, number, numbers};
use crate::text::{Texts, bytes_of};
use crate::turn::{Turn, most_written};
use anyhow::{Result, bail};
use mg_edge::{Got, MemorySink, MemorySource, MemoryStore, Put, Sink, Source};
use serde_json::Value;
use std::alloc::Global;
use std::sync::atomic::{AtomicBool, Ordering};

// How many bytes a sink takes if a case doesn't say it: more than most texts have.
const ROOM: u64 = 1 << 20;

/// The devices of a call, and its outcome. The devices' types are parameters to save proof time: with known types, each clause of
/// the top call is written out over them.
#[derive(Drop)]
pub struct Outside<T, S, K, E> {
    pub store: T,
    pub input: S,
    pub output: K,
    pub notes: E,
    pub status: u8,
    /// How many boxes came back.
    pub boxes: u64,
    /// How many calls the boxes have had.
    pub box_calls: u64,
    /// What the boxes tell of their calls, if the case asks for it.
    pub logs: String,
}

/// The devices that each call has here.
pub type InMemory<'a> = Outside<MemoryStore, Input<'a>, Output<'a>, MemorySink>;

/// A source in memory. It may have a read that fails unless the output has taken something by then.
#[derive(Drop)]
pub struct Input<'a> {
    pub bytes: MemorySource,
    waits_at: Option<u64>,
    has_taken: &'a AtomicBool,
    /// How many reads met the end.
    pub ends: u64,
    /// How many reads failed.
    pub faults: u64,
}

impl<'a> Input<'a> {
    // Returns whether the next read fails because the output has taken nothing.
    fn is_early(&self) -> bool {
        match self.waits_at {
            Some(read) => self.bytes.reads() == read && !self.has_taken.load(Ordering::SeqCst),
            None => false,
        }
    }
}

impl<'a> Source for Input<'a> {
    ghost told = { λ s. record { left = None; reads = None; ends = s.ends; faults = s.faults; left_at_bytes = None; left_at_fault = None } };

    fn read(&mut self, buf: &mut [u8]) -> Got {
        if self.is_early() {
            self.faults = self.faults.wrapping_add(1);
            return Got::Failed;
        }
        match self.bytes.read(buf) {
            Got::Bytes(count) => Got::Bytes(count),
            Got::End => {
                self.ends = self.ends.wrapping_add(1);
                Got::End
            }
            Got::Failed => {
                self.faults = self.faults.wrapping_add(1);
                Got::Failed
            }
        }
    }
}

/// A sink in memory, which lets the source know that it has taken something.
#[derive(Drop)]
pub struct Output<'a> {
    pub bytes: MemorySink,
    has_taken: &'a AtomicBool,
    /// How many writes failed.
    pub faults: u64,
}

impl<'a> Sink for Output<'a> {
    ghost told = { λ s. record { taken = None; faults = s.faults } };

    fn write(&mut self, piece: &[u8]) -> Put {
        match self.bytes.write(piece) {
            Put::Took(count) => {
                self.has_taken.store(true, Ordering::SeqCst);
                Put::Took(count)
            }
            Put::Failed => {
                self.faults = self.faults.wrapping_add(1);
                Put::Failed
            }
        }
    }
}

/// Appends the devices of the calls that are asked for. There is a call for each text in the `logs` of the case, and one call if the
/// case has no `logs`. `has_taken` says whether one of their outputs has taken something.
pub fn put_devices<'a>(
    alloc: Global,
    asked: Asked<'_>,
    has_taken: &'a AtomicBool,
    outsides: &mut Vec<InMemory<'a>>,
) -> Result<()> {
    for _ in 0..list(asked.case, "logs")?.len().max(1) {
        outsides.push(outside_of(alloc, asked, has_taken)?)?;
    }
    for outside in outsides.iter_mut() {
        fill(alloc, asked, &mut outside.store)?;
    }
    Ok(())
}

// Returns the devices of a call, with a store that is empty.
fn outside_of<'a>(
    alloc: Global,
    asked: Asked<'_>,
    has_taken: &'a AtomicBool,
) -> Result<InMemory<'a>> {
    let input = input_over(alloc, asked, has_taken)?;
    let output = output_over(alloc, asked, has_taken)?;
    let notes = sink_of(alloc, asked.case, "failing_notes", None, "notes_room")?;
    Ok(Outside {
        store: MemoryStore::new(alloc),
        input,
        output,
        notes,
        status: 0,
        boxes: 0,
        box_calls: 0,
        logs: String::new(alloc),
    })
}

// Puts the files of a call into its store.
fn fill(alloc: Global, asked: Asked<'_>, store: &mut MemoryStore) -> Result<()> {
    let case = asked.case;
    if let Some(load) = number(case, "failing_load")? {
        store.fail_at(load);
    }
    if let Some(graph) = list(case, "graphs")?.get(asked.choice.graph) {
        put_file(alloc, asked.texts, store, "g.pbtxt", graph)?;
    }
    match case.get("files") {
        None => {}
        Some(Value::Object(files)) => {
            for (name, file) in files {
                put_file(alloc, asked.texts, store, name, file)?;
            }
        }
        Some(files) => bail!("files: no object: {files}"),
    }
    Ok(())
}

fn put_file(
    alloc: Global,
    texts: &Texts,
    store: &mut MemoryStore,
    name: &str,
    said: &Value,
) -> Result<()> {
    let bytes = bytes_of(alloc, texts, Some(said))?;
    let put = store.put(name, &bytes);
    drop(bytes);
    Ok(put?)
}

fn input_over<'a>(alloc: Global, asked: Asked<'_>, has_taken: &'a AtomicBool) -> Result<Input<'a>> {
    let waits_at = number(asked.case, "waits_at")?;
    Ok(Input {
        bytes: source_of(alloc, asked)?,
        waits_at,
        has_taken,
        ends: 0,
        faults: 0,
    })
}

fn source_of(alloc: Global, asked: Asked<'_>) -> Result<MemorySource> {
    let one_more = match asked.turn {
        Turn::Read(read, _) => Some(read),
        _ => None,
    };
    let failing = failing_of(alloc, asked.case, "failing_reads", one_more)?;
    let input = input_of(alloc, asked.texts, asked.case, asked.choice)?;
    let piece = asked.choice.piece.max(1) as usize;
    let source = MemorySource::new(alloc, &input, piece, &failing);
    drop(input);
    drop(failing);
    Ok(source?)
}

fn output_over<'a>(
    alloc: Global,
    asked: Asked<'_>,
    has_taken: &'a AtomicBool,
) -> Result<Output<'a>> {
    let one_more = match asked.turn {
        Turn::Write(write, _) => Some(write),
        _ => None,
    };
    Ok(Output {
        bytes: sink_of(alloc, asked.case, "failing_writes", one_more, "room")?,
        has_taken,
        faults: 0,
    })
}

// Returns the numbers of the calls of a device that fail, by a key of the case, and perhaps one more.
fn failing_of(alloc: Global, case: &Value, name: &str, one_more: Option<u64>) -> Result<Vec<u64>> {
    let mut failing = numbers(alloc, case, name)?;
    if let Some(number) = one_more {
        failing.push(number)?;
    }
    Ok(failing)
}

// Returns a sink. The case says at the key `room` how much the sink takes, and at the key `fails` which of its writes fail. One more
// write may fail.
fn sink_of(
    alloc: Global,
    case: &Value,
    fails: &str,
    one_more: Option<u64>,
    room: &str,
) -> Result<MemorySink> {
    let room = number(case, room)?.unwrap_or(ROOM) as usize;
    let most = most_written(case)?.max(1) as usize;
    let failing = failing_of(alloc, case, fails, one_more)?;
    let sink = MemorySink::slow(alloc, room, most, &failing);
    drop(failing);
    Ok(sink?)
}
