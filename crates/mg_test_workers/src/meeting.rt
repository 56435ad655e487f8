//! Two Process calls that meet, since two workers make them. Calls that workers make one after the other don't meet.
use crate::running::expect_run;
use mg_edge::MeetGate;
use mg_nets::{Case, added};
use std::alloc::Global;
use std::sync::Wait;
use std::test::Fail;
use std::thread::Threads;

/// A Process call: its node, and the number of its set.
pub(crate) type Call = (u32, u64);

// How often a call that waits at a gate looks for the other call: `LONG` if the other is to come, and `SHORT` if it
// isn't.
const LONG: u64 = 200_000_000;

const SHORT: u64 = 20_000;

/// Lets two workers run the net of a case, and expects two of its Process calls to meet, or not to meet.
pub(crate) fn expect_met<R: Threads + Wait + Sync>(
    rt: &R,
    alloc: Global,
    case: &Case,
    first: Call,
    second: Call,
    wanted: bool,
) -> Result<(), Fail> {
    let turns = if wanted { LONG } else { SHORT };
    let gate = MeetGate::new(first, second, turns);
    expect_run(rt, alloc, case, 2, &gate)?;
    if gate.met() == wanted {
        return Ok(());
    }
    Err(Fail::new(format_args!("call {}: {}", second.1, case.graph)))
}

// Returns a graph of two nodes that read one stream.
fn side_by_side() -> &'static str {
    r#"input_stream: "in" output_stream: "one" output_stream: "two"
node { calculator: "IntMapCalculator" input_stream: "in" output_stream: "one"
  options { [mediapipe.IntMapCalculatorOptions.ext] { op: ADD operand: 10 } } }
node { calculator: "IntMapCalculator" input_stream: "in" output_stream: "two"
  options { [mediapipe.IntMapCalculatorOptions.ext] { op: ADD operand: 10 } } }"#
}

// Returns the case of a packet that goes through both nodes.
fn both() -> Case<'static> {
    Case {
        graph: side_by_side(),
        lines: r#"{"stream":"in","ts":1,"value":5}"#,
        limit: 100,
        wanted: "15@1 15@1 | 0 | 1 1 ; 1@Done 1@Done 1@Done ;",
        calls: ";;",
    }
}

#[test]
fn two_nodes_meet(rt: HostRuntime) -> Result<(), Fail> {
    expect_met(&rt, rt.alloc(), &both(), (0, 0), (1, 0), true)
}

#[test]
fn two_sets_meet(rt: HostRuntime) -> Result<(), Fail> {
    expect_met(&rt, rt.alloc(), &added(), (0, 0), (0, 1), true)
}
