//! Runs of the program over devices in memory, with mills of so many turns.
use crate::own::{MILL, Own};
use mg_calc::Handed;
use mg_edge::{Gate, MemorySink, MemorySource, MemoryStore, Sink, Source, Store};
use mg_run::run_words;
use mg_value::MgText;
use own_mill::{Mill, mill_box};
use std::alloc::{AllocError, Global};
use std::sync::Wait;
use std::test::Fail;
use std::thread::Threads;

// How many user-supplied mills there are.
const MILLS: usize = 8;

// How many bytes a sink takes, more than each text here has.
const ROOM: usize = 1 << 16;

/// Returns so many packet lines.
pub(crate) fn lines(alloc: Global, count: u32) -> Result<String, AllocError> {
    let mut text = String::new(alloc);
    for number in 0..count {
        write!(
            text,
            "{{\"stream\":\"in\",\"ts\":{number},\"value\":{number}}}\n"
        )?;
    }
    Ok(text)
}

/// Returns how many lines a text has.
pub(crate) fn lines_in(text: &[u8]) -> usize {
    text.iter().filter(|byte| **byte == b'\n').count()
}

/// A graph with packet lines, and how many turns its mills make.
#[derive(Clone, Copy)]
pub(crate) struct Job<'a> {
    pub graph: &'a str,
    pub lines: &'a str,
    pub turns: u32,
}

// Makes the top call over devices, with mills. The devices' types are parameters to save proof time: with known types, each clause of the
// top call is written out over them.
fn call<R: Threads + Wait + Sync, G: Gate + Sync, T: Store, S: Source, K: Sink, E: Sink>(
    rt: &R,
    alloc: Global,
    words: &[MgText],
    turns: u32,
    gate: &G,
    store: &mut T,
    input: &mut S,
    output: &mut K,
    notes: &mut E,
) -> Result<u8, AllocError> {
    let mut boxes: Vec<Handed<Own, Mill>> = Vec::new(alloc);
    for _ in 0..MILLS {
        boxes.push(mill_box(alloc, MILL, turns)?)?;
    }
    let status = run_words(
        rt, alloc, words, store, input, output, notes, &mut boxes, gate,
    );
    Ok(status.number())
}

// Returns the words of a run with this many workers.
fn words(alloc: Global, workers: &str) -> Result<Vec<MgText>, AllocError> {
    let mut words = Vec::new(alloc);
    for word in ["run", "g.pbtxt", "--workers", workers] {
        words.push(MgText::new(alloc, word)?)?;
    }
    Ok(words)
}

/// Runs a graph with this many workers, each Process call through a gate, and returns what comes out.
pub(crate) fn output_of<R: Threads + Wait + Sync, G: Gate + Sync>(
    rt: &R,
    alloc: Global,
    job: Job<'_>,
    workers: &str,
    gate: &G,
) -> Result<Vec<u8>, Fail> {
    let words = words(alloc, workers)?;
    let mut store = MemoryStore::new(alloc);
    store.put("g.pbtxt", job.graph.as_bytes())?;
    let mut input = MemorySource::new(alloc, job.lines.as_bytes(), 4096, &[])?;
    let mut output = MemorySink::new(alloc, ROOM, &[])?;
    let mut notes = MemorySink::new(alloc, ROOM, &[])?;
    let status = call(
        rt,
        alloc,
        words.as_slice(),
        job.turns,
        gate,
        &mut store,
        &mut input,
        &mut output,
        &mut notes,
    )?;
    if status != 0 {
        return Err(Fail::new(format_args!("status {status}")));
    }
    Ok(output.taken().to_vec(alloc)?)
}
