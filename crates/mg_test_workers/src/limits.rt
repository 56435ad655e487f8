//! What limits of queues do if workers run a net: they hold sources back, and nothing stands still because of them.
use crate::meeting::expect_met;
use crate::running::expect_each;
use mg_nets::{Case, under};
use std::alloc::Global;
use std::sync::Wait;
use std::test::Fail;
use std::thread::Threads;

// Returns a graph in which a thousand packets of a source wait for a filter that lets none through.
fn waiting() -> &'static str {
    r#"output_stream: "out"
node { calculator: "CountingSourceCalculator" output_stream: "n"
  options { [mediapipe.CountingSourceCalculatorOptions.ext] { count: 1000 } } }
node { calculator: "IntFilterCalculator" input_stream: "n" output_stream: "f"
  options { [mediapipe.IntFilterCalculatorOptions.ext] { keep: NEGATIVE } } }
node { calculator: "MergeCalculator" input_stream: "f" input_stream: "n" output_stream: "out" }"#
}

// Returns a case without packet lines.
fn case_of(graph: &'static str, limit: i32, wanted: &'static str) -> Case<'static> {
    Case {
        graph,
        lines: "",
        limit,
        wanted,
        calls: ";;",
    }
}

// Workers reach the end by themselves if full queues have to be relaxed.
#[test]
fn full_queues_are_relaxed(rt: HostRuntime) -> Result<(), Fail> {
    let wanted = "..| 0 | 1000 1000 1000 ; 1000@Done 0@Done 1000@Done ;";
    expect_each(&rt, rt.alloc(), &case_of(waiting(), 1, wanted))
}

// Returns a graph of a source and a node that has several works at once, so that packets can be brought to it meanwhile.
fn flying() -> &'static str {
    r#"output_stream: "out"
node { calculator: "CountingSourceCalculator" output_stream: "n"
  options { [mediapipe.CountingSourceCalculatorOptions.ext] { count: 300 } } }
node { calculator: "IntMapCalculator" input_stream: "n" output_stream: "out" max_in_flight: 4
  options { [mediapipe.IntMapCalculatorOptions.ext] { op: ADD operand: 1 } } }"#
}

// Returns a graph of a source and a node to which nothing can be brought while it works.
fn working() -> &'static str {
    r#"output_stream: "out"
node { calculator: "CountingSourceCalculator" output_stream: "n"
  options { [mediapipe.CountingSourceCalculatorOptions.ext] { count: 300 } } }
node { calculator: "RunningSumCalculator" input_stream: "n" output_stream: "out" }"#
}

// What comes out of either graph: all packets of the source go through.
const GONE_THROUGH: &str = "..| 0 | 300 300 ; 300@Done 300@Done ;";

// Expects another worker to make the source's call of this number during the first work of the node after the source, or not to.
fn expect_called<R: Threads + Wait + Sync>(
    rt: &R,
    alloc: Global,
    case: &Case,
    call: u64,
    wanted: bool,
) -> Result<(), Fail> {
    expect_met(rt, alloc, case, (1, 0), (0, call), wanted)
}

// A source is called 64 times before a worker looks at the queue after it.
#[test]
fn full_queues_hold_sources_back(rt: HostRuntime) -> Result<(), Fail> {
    let case = case_of(flying(), 100, GONE_THROUGH);
    expect_called(&rt, rt.alloc(), &under(case, 1), 64, false)?;
    expect_called(&rt, rt.alloc(), &case, 64, true)?;
    expect_called(&rt, rt.alloc(), &case, 192, false)?;
    expect_called(&rt, rt.alloc(), &under(case, -1), 256, true)
}

// A source isn't called for long if its packets can't be brought.
#[test]
fn packets_that_cannot_be_brought_hold_sources_back(rt: HostRuntime) -> Result<(), Fail> {
    let case = case_of(working(), 100, GONE_THROUGH);
    expect_called(&rt, rt.alloc(), &case, 192, false)
}
