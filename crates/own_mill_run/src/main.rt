//! A program with calculators of its own that take long. With it `bench/workers` measures workers. It is `mg` with user-supplied mills. Two
//! numbers stand before its words: how many turns a mill makes at each number, and how many microseconds each call sleeps. It does what the
//! contract of `mg_run::run_words` says, with the rules of the mills for the nodes that have a mill.
#![tactic(auto)]

mod nap;
mod own;

use crate::nap::Nap;
use crate::own::{MILL, Own};
use mg_calc::Handed;
use mg_edge::{FolderStore, Gate, ReaderSource, Sink, Source, Store, WriterSink};
use mg_run::{Status, note_out_of_memory, run_words};
use mg_value::MgText;
use own_mill::{Mill, mill_box};
use std::alloc::{AllocError, Global};
use std::env;
use std::io::ErrorKind;
use std::process::ExitCode;
use std::sync::Wait;
use std::thread::Threads;
use std::time::Duration;

/// How many user-supplied mills there are.
const MILLS: usize = 16;

fn main(rt: HostRuntime) -> ExitCode {
    let status = match status_of(&rt, &rt) {
        Ok(status) => status,
        Err(_) => note_out_of_memory(&mut WriterSink::new(rt.stderr())),
    };
    ExitCode::from(status.number())
}

// Makes the call over the files below the current folder and the standard streams, and returns its status. Its threads come from the
// runtime that `main` alone has whole.
fn status_of<R: Threads + Wait + Sync>(
    threads: &R,
    rt: &HostRuntime,
) -> Result<Status, AllocError> {
    let words = words(rt)?;
    let Ok(files) = rt.clone() else {
        return Err(AllocError);
    };
    let nap = Nap {
        rt,
        time: Duration::from_micros(u64::from(number(rt, 2))),
    };
    call(
        threads,
        rt.alloc(),
        words.as_slice(),
        number(rt, 1),
        &nap,
        &mut FolderStore::new(rt.alloc(), files),
        &mut ReaderSource::new(rt.stdin()),
        &mut WriterSink::new(rt.stdout()),
        &mut WriterSink::new(rt.stderr()),
    )
}

// Returns the number at a place of the command line, or 0 if no number stands there. The program's name stands at place
// 0.
fn number(rt: &HostRuntime, place: usize) -> u32 {
    match word(rt, place) {
        Some(word) => number_of(&word),
        None => 0,
    }
}

fn word(rt: &HostRuntime, place: usize) -> Option<String> {
    env::args(rt).ok()?.nth(place)
}

fn number_of(word: &str) -> u32 {
    match word.parse() {
        Ok(number) => number,
        Err(_) => 0,
    }
}

// Returns the words after the two numbers. If one of the words isn't UTF-8, it returns no words, so that they are no
// command.
fn words(rt: &HostRuntime) -> Result<Vec<MgText>, AllocError> {
    let alloc = rt.alloc();
    let mut words = Vec::new(alloc);
    match env::args(rt) {
        Ok(args) => {
            for word in args.skip(3) {
                words.push(MgText::from_string(word))?;
            }
            Ok(words)
        }
        Err(error) if error.kind() == ErrorKind::OutOfMemory => Err(AllocError),
        Err(_) => Ok(words),
    }
}

// Makes the top call over any devices and boxes of its own. The devices' types are parameters to save proof time: with known types,
// each clause of the top call is written out over them.
fn call<R: Threads + Wait + Sync, G: Gate + Sync, T: Store, S: Source, K: Sink, E: Sink>(
    threads: &R,
    alloc: Global,
    words: &[MgText],
    turns: u32,
    gate: &G,
    store: &mut T,
    input: &mut S,
    output: &mut K,
    notes: &mut E,
) -> Result<Status, AllocError> {
    let mut boxes: Vec<Handed<Own, Mill>> = Vec::new(alloc);
    for _ in 0..MILLS {
        boxes.push(mill_box(alloc, MILL, turns)?)?;
    }
    Ok(run_words(
        threads, alloc, words, store, input, output, notes, &mut boxes, gate,
    ))
}
