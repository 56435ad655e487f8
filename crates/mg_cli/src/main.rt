//! The program `mg`: hands the words, the files and the standard streams to the top call, and exits with its status.
//! What the program does is what the contract of `mg_run::run_words` says.
#![tactic(auto)]

use mg_edge::{FolderStore, ReaderSource, Sink, Source, StillGate, Store, WriterSink};
use mg_route::LawBox;
use mg_run::{Status, begin_loop, end_loop, note_out_of_memory, run_words, tally_box};
use mg_value::MgText;
use std::alloc::{AllocError, Global};
use std::env;
use std::io::ErrorKind;
use std::process::ExitCode;
use std::sync::Wait;
use std::thread::Threads;

/// How many TallyCalculator boxes the program supplies.
const TALLIES: usize = 4;

/// How many BeginLoopCalculator boxes the program supplies.
const BEGIN_LOOPS: usize = 4;

/// How many BeginLoopCloneCalculator boxes the program supplies.
const BEGIN_CLONE_LOOPS: usize = 2;

/// How many EndLoopCalculator boxes the program supplies.
const END_LOOPS: usize = 6;

fn main(rt: HostRuntime) -> ExitCode {
    let status = match status_of(&rt, &rt) {
        Ok(status) => status,
        Err(_) => note_out_of_memory(&mut WriterSink::new(rt.stderr())),
    };
    ExitCode::from(status.number())
}

// Makes the call over the files below the current folder and the standard streams, and returns its status. Its threads come from the
// runtime that `main` alone has whole.
fn status_of<R: Threads + Wait + Sync>(
    threads: &R,
    rt: &HostRuntime,
) -> Result<Status, AllocError> {
    let words = words(rt)?;
    let Ok(files) = rt.clone() else {
        return Err(AllocError);
    };
    call(
        threads,
        rt.alloc(),
        words.as_slice(),
        &mut FolderStore::new(rt.alloc(), files),
        &mut ReaderSource::new(rt.stdin()),
        &mut WriterSink::new(rt.stdout()),
        &mut WriterSink::new(rt.stderr()),
    )
}

// Returns the words after the program's name: none if one of them isn't UTF-8, so that they are no command.
fn words(rt: &HostRuntime) -> Result<Vec<MgText>, AllocError> {
    let alloc = rt.alloc();
    let mut words = Vec::new(alloc);
    match env::args(rt) {
        Ok(args) => {
            for word in args.skip(1) {
                words.push(MgText::from_string(word))?;
            }
            Ok(words)
        }
        Err(error) if error.kind() == ErrorKind::OutOfMemory => Err(AllocError),
        Err(_) => Ok(words),
    }
}

// Makes the top call over any devices and boxes of its own. The devices' types are parameters, which makes the proof faster. If the types
// are known, each clause of the top call is written out over them.
fn call<R: Threads + Wait + Sync, T: Store, S: Source, K: Sink, E: Sink>(
    threads: &R,
    alloc: Global,
    words: &[MgText],
    store: &mut T,
    input: &mut S,
    output: &mut K,
    notes: &mut E,
) -> Result<Status, AllocError> {
    let mut boxes: Vec<LawBox> = Vec::new(alloc);
    for _ in 0..TALLIES {
        boxes.push(tally_box(alloc, false)?)?;
    }
    for number in 0..BEGIN_LOOPS + BEGIN_CLONE_LOOPS {
        boxes.push(begin_loop(alloc, number >= BEGIN_LOOPS, false)?)?;
    }
    for _ in 0..END_LOOPS {
        boxes.push(end_loop(alloc, false)?)?;
    }
    Ok(run_words(
        threads, alloc, words, store, input, output, notes, &mut boxes, &StillGate,
    ))
}
