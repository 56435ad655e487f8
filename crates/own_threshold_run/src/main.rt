//! A program with calculators of its own, which `own` names. It is `mg` with these user-supplied calculators. It does what the
//! contract of `mg_run::run_words` says, with the rules of these calculators for the nodes that have one.
#![tactic(auto)]

mod own;

use crate::own::own_boxes;
use mg_edge::{FolderStore, ReaderSource, Sink, Source, StillGate, Store, WriterSink};
use mg_run::{Status, note_out_of_memory, run_words};
use mg_value::MgText;
use std::alloc::{AllocError, Global};
use std::env;
use std::io::ErrorKind;
use std::process::ExitCode;
use std::sync::Wait;
use std::thread::Threads;

fn main(rt: HostRuntime) -> ExitCode {
    let status = match status_of(&rt, &rt) {
        Ok(status) => status,
        Err(_) => note_out_of_memory(&mut WriterSink::new(rt.stderr())),
    };
    ExitCode::from(status.number())
}

// Makes the call over the files below the current folder and the standard streams, and returns its status. Its threads come from the
// runtime that `main` alone has whole.
fn status_of<R: Threads + Wait + Sync>(
    threads: &R,
    rt: &HostRuntime,
) -> Result<Status, AllocError> {
    let words = words(rt)?;
    let Ok(files) = rt.clone() else {
        return Err(AllocError);
    };
    call(
        threads,
        rt.alloc(),
        words.as_slice(),
        &mut FolderStore::new(rt.alloc(), files),
        &mut ReaderSource::new(rt.stdin()),
        &mut WriterSink::new(rt.stdout()),
        &mut WriterSink::new(rt.stderr()),
    )
}

// Returns the words after the program's name. If one of the words isn't UTF-8, it returns no words, so that they are no
// command.
fn words(rt: &HostRuntime) -> Result<Vec<MgText>, AllocError> {
    let alloc = rt.alloc();
    let mut words = Vec::new(alloc);
    match env::args(rt) {
        Ok(args) => {
            for word in args.skip(1) {
                words.push(MgText::from_string(word))?;
            }
            Ok(words)
        }
        Err(error) if error.kind() == ErrorKind::OutOfMemory => Err(AllocError),
        Err(_) => Ok(words),
    }
}

// Makes the top call over any devices and boxes of its own. The devices' types are parameters to save proof time: with known types,
// each clause of the top call is written out over them.
fn call<R: Threads + Wait + Sync, T: Store, S: Source, K: Sink, E: Sink>(
    threads: &R,
    alloc: Global,
    words: &[MgText],
    store: &mut T,
    input: &mut S,
    output: &mut K,
    notes: &mut E,
) -> Result<Status, AllocError> {
    let mut boxes = own_boxes(alloc)?;
    Ok(run_words(
        threads, alloc, words, store, input, output, notes, &mut boxes, &StillGate,
    ))
}
