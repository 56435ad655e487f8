//! How many turns of workers are in vain.
use crate::running::expect_run;
use mg_edge::StillGate;
use mg_nets::Case;
use std::alloc::{AllocError, Global};
use std::sync::Wait;
use std::test::Fail;
use std::thread::Threads;

// How many packets the source sends.
const PACKETS: u64 = 1500;

// At how many ports the last node reads the last stream of the chain.
const PORTS: u32 = 64;

// Returns the text of a source, and of three nodes that read one another's streams.
fn chain() -> &'static str {
    r#"output_stream: "out"
node { calculator: "CountingSourceCalculator" output_stream: "n"
  options { [mediapipe.CountingSourceCalculatorOptions.ext] { count: 1500 } } }
node { calculator: "IntMapCalculator" input_stream: "n" output_stream: "a"
  options { [mediapipe.IntMapCalculatorOptions.ext] { op: ADD operand: 1 } } }
node { calculator: "IntMapCalculator" input_stream: "a" output_stream: "b"
  options { [mediapipe.IntMapCalculatorOptions.ext] { op: ADD operand: 1 } } }
node { calculator: "IntMapCalculator" input_stream: "b" output_stream: "c"
  options { [mediapipe.IntMapCalculatorOptions.ext] { op: ADD operand: 1 } } }
"#
}

// Returns the text of the chain, and of a node that reads its last stream at many ports.
fn wide(alloc: Global) -> Result<String, AllocError> {
    let mut text = String::new(alloc);
    text.push_str(chain())?;
    text.push_str("node { calculator: \"IntSumCalculator\"")?;
    for _ in 0..PORTS {
        text.push_str(" input_stream: \"c\"")?;
    }
    text.push_str(" output_stream: \"out\" }")?;
    Ok(text)
}

// Expects at most 16 turns in vain for each packet. Each packet goes along 68 edges.
fn expect_few<R: Threads + Wait + Sync>(
    rt: &R,
    alloc: Global,
    case: &Case,
    workers: u32,
) -> Result<(), Fail> {
    let vain = expect_run(rt, alloc, case, workers, &StillGate)?;
    if vain <= 16 * PACKETS {
        return Ok(());
    }
    Err(Fail::new(format_args!("{workers} workers: {vain} turns in vain")))
}

#[test]
fn many_ports_of_one_stream_take_few_turns_in_vain(rt: HostRuntime) -> Result<(), Fail> {
    let graph = wide(rt.alloc())?;
    let case = Case {
        graph: graph.as_str(),
        lines: "",
        limit: 100,
        wanted: "..| 0 | 1500 1500 1500 1500 1500 ; 1500@Done 1500@Done 1500@Done 1500@Done 1500@Done ;",
        calls: ";;",
    };
    for workers in [2, 4, 8] {
        expect_few(&rt, rt.alloc(), &case, workers)?;
    }
    Ok(())
}
