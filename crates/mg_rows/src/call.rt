//! Calls of the program over devices in memory.

use crate::choice::Choice;
use crate::devices::{InMemory, Outside, put_devices};
use crate::log::put_logs;
use crate::member::list;
use crate::text::Texts;
use crate::turn::Turn;
use crate::watch::Watch;
use anyhow::{Result, bail};
use mg_calc::NodeCalculator;
use mg_edge::{Gate, Sink, Source, Store};
use mg_route::LawBox;
use mg_run::{begin_loop, end_loop, run_words, tally_box};
use mg_value::MgText;
use serde_json::Value;
use std::alloc::{AllocError, Global};
use std::sync::Wait;
use std::sync::atomic::AtomicBool;
use std::thread::Threads;

// How many TallyCalculator boxes a call is given.
const TALLIES: usize = 4;

// How many boxes for loops over lists a call is given: one for the begin of a loop, and the rest for its end.
const LOOP_ENDS: usize = 2;

/// The names of what is counted, by the devices, by the boxes, and by the gate.
pub const COUNTS: [&str; 15] = [
    "loads",
    "load_faults",
    "reads",
    "ends",
    "read_faults",
    "writes",
    "write_faults",
    "note_writes",
    "note_faults",
    "boxes",
    "box_calls",
    "entered",
    "left",
    "out_of_turn",
    "met",
];

/// What is asked for: a call of a case that takes a choice, and in which a turn fails. The texts are the texts that the lines above have
/// named.
#[derive(Clone, Copy)]
pub struct Asked<'a> {
    pub texts: &'a Texts,
    pub case: &'a Value,
    pub choice: Choice,
    pub turn: Turn,
}

/// The outcome of a call.
#[derive(Drop)]
pub struct Outcome<'a> {
    pub output: &'a [u8],
    pub notes: &'a [u8],
    /// The status that the program exits with.
    pub status: u8,
    /// What was counted, in the order of `COUNTS`.
    pub counts: [u64; 15],
    /// The name of the file whose load failed last.
    pub failed_name: Option<&'a str>,
    /// What the boxes tell of their calls, if the case asks for it.
    pub logs: &'a str,
}

/// Makes the calls that are asked for, all with the same boxes and through the same gate, and appends their devices.
pub fn make_calls<'a, R: Threads + Wait + Sync>(
    rt: &R,
    alloc: Global,
    asked: Asked<'_>,
    watch: &Watch,
    has_taken: &'a AtomicBool,
    outsides: &mut Vec<InMemory<'a>>,
) -> Result<()> {
    put_devices(alloc, asked, has_taken, outsides)?;
    let mut words = Vec::new(alloc);
    let made = make_by(rt, alloc, asked, watch, &mut words, outsides);
    drop(words);
    made
}

// Reads the words of the calls, and makes them.
fn make_by<R: Threads + Wait + Sync>(
    rt: &R,
    alloc: Global,
    asked: Asked<'_>,
    watch: &Watch,
    words: &mut Vec<MgText>,
    outsides: &mut [InMemory<'_>],
) -> Result<()> {
    put_words(alloc, asked.case, asked.choice, words)?;
    let tells = !list(asked.case, "logs")?.is_empty();
    call(rt, alloc, words.as_slice(), outsides, watch, tells)?;
    Ok(())
}

// Makes the top call over each of some devices, with the same boxes of its own, which keep logs. The devices' types are parameters to save
// proof time: with known types, each clause of the top call is written out over them.
fn call<R: Threads + Wait + Sync, T: Store, S: Source, K: Sink, E: Sink, G: Gate + Sync>(
    rt: &R,
    alloc: Global,
    words: &[MgText],
    outsides: &mut [Outside<T, S, K, E>],
    gate: &G,
    tells: bool,
) -> Result<(), AllocError> {
    let mut boxes: Vec<LawBox> = Vec::new(alloc);
    for _ in 0..TALLIES {
        boxes.push(tally_box(alloc, true)?)?;
    }
    boxes.push(begin_loop(alloc, false, true)?)?;
    for _ in 1..LOOP_ENDS {
        boxes.push(end_loop(alloc, true)?)?;
    }
    for outside in outsides.iter_mut() {
        let status = run_words(
            rt,
            alloc,
            words,
            &mut outside.store,
            &mut outside.input,
            &mut outside.output,
            &mut outside.notes,
            &mut boxes,
            gate,
        );
        outside.status = status.number();
        outside.boxes = boxes.len() as u64;
        outside.box_calls = calls_of(&boxes);
        if tells {
            put_logs(alloc, &mut outside.logs, &mut boxes)?;
        }
    }
    Ok(())
}

/// Returns the outcome of the call over these devices and through this gate.
pub fn outcome_of<'a>(outside: &'a InMemory<'_>, watch: &Watch) -> Outcome<'a> {
    let Outside {
        store,
        input,
        output,
        notes,
        status,
        boxes,
        box_calls,
        logs,
    } = outside;
    let (entered, left, out_of_turn) = watch.counts();
    Outcome {
        output: output.bytes.taken(),
        notes: notes.taken(),
        status: *status,
        counts: [
            store.loads(),
            store.faults(),
            input.bytes.reads(),
            input.ends,
            input.faults,
            output.bytes.writes(),
            output.faults,
            notes.writes(),
            notes.faults(),
            *boxes,
            *box_calls,
            entered,
            left,
            out_of_turn,
            u64::from(watch.met()),
        ],
        failed_name: store.failed_name(),
        logs: logs.as_str(),
    }
}

// Returns how many calls some boxes had, by their logs.
fn calls_of(boxes: &[LawBox]) -> u64 {
    let mut calls = 0u64;
    for one in boxes {
        calls = calls.saturating_add(one.log().len() as u64);
    }
    calls
}

// Appends the words of a choice, or `run` and `g.pbtxt` if the case has none.
fn put_words(alloc: Global, case: &Value, choice: Choice, words: &mut Vec<MgText>) -> Result<()> {
    match list(case, "words")?.get(choice.words) {
        None => {
            words.push(MgText::new(alloc, "run")?)?;
            words.push(MgText::new(alloc, "g.pbtxt")?)?;
        }
        Some(Value::Array(said)) => {
            for word in said {
                let Some(word) = word.as_str() else {
                    bail!("no word: {word}");
                };
                words.push(MgText::new(alloc, word)?)?;
            }
        }
        Some(said) => bail!("no list of words: {said}"),
    }
    Ok(())
}
