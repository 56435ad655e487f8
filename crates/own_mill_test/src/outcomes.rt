//! What comes out of mills that compute for about a microsecond or a millisecond is the same for each number of workers.
use crate::running::{Job, lines, lines_in, output_of};
use mg_edge::StillGate;
use std::alloc::Global;
use std::sync::Wait;
use std::test::Fail;
use std::thread::Threads;

// Returns the text of a graph: a chain of three mills, and three more that read its first stream.
fn graph() -> &'static str {
    r#"input_stream: "in" output_stream: "c" output_stream: "x" output_stream: "y" output_stream: "z"
node { calculator: "MillCalculator" input_stream: "in" output_stream: "a" }
node { calculator: "MillCalculator" input_stream: "a" output_stream: "b" }
node { calculator: "MillCalculator" input_stream: "b" output_stream: "c" }
node { calculator: "MillCalculator" input_stream: "a" output_stream: "x" }
node { calculator: "MillCalculator" input_stream: "a" output_stream: "y" }
node { calculator: "MillCalculator" input_stream: "a" output_stream: "z" }"#
}

// Runs mills of so many turns over so many lines. Expects the output with workers to be the same as on one thread, and to have four lines
// for each line.
fn expect_same<R: Threads + Wait + Sync>(
    rt: &R,
    alloc: Global,
    turns: u32,
    count: u32,
) -> Result<(), Fail> {
    let lines = lines(alloc, count)?;
    let job = Job {
        graph: graph(),
        lines: lines.as_str(),
        turns,
    };
    let wanted = output_of(rt, alloc, job, "0", &StillGate)?;
    for workers in ["1", "2", "4"] {
        let got = output_of(rt, alloc, job, workers, &StillGate)?;
        if got.as_slice() != wanted.as_slice() {
            return Err(Fail::new(format_args!("{workers} workers differ")));
        }
    }
    let came = lines_in(wanted.as_slice());
    if came != 4 * count as usize {
        return Err(Fail::new(format_args!("{came} lines")));
    }
    Ok(())
}

#[test]
fn calls_of_a_microsecond(rt: HostRuntime) -> Result<(), Fail> {
    expect_same(&rt, rt.alloc(), 300, 200)
}

#[test]
fn calls_of_a_millisecond(rt: HostRuntime) -> Result<(), Fail> {
    expect_same(&rt, rt.alloc(), 300_000, 10)
}
