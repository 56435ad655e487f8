//! Each Process call goes through the gate once, whoever makes it.
use crate::running::expect_run;
use mg_edge::Gate;
use mg_nets::Case;
use std::sync::atomic::{AtomicU64, Ordering};
use std::test::*;

// A gate that counts the calls that enter it, and the calls that leave it.
#[derive(Drop)]
struct Counts {
    entered: AtomicU64,
    left: AtomicU64,
}

impl Counts {
    fn new() -> Counts {
        Counts {
            entered: AtomicU64::new(0),
            left: AtomicU64::new(0),
        }
    }
}

impl Gate for Counts {
    fn enter(&self, _node: u32, _number: u64) {
        self.entered.fetch_add(1, Ordering::SeqCst);
    }

    fn leave(&self, _node: u32, _number: u64) {
        self.left.fetch_add(1, Ordering::SeqCst);
    }
}

// Returns a graph that leaves out packets that come too early.
fn thinning() -> &'static str {
    r#"input_stream: "in" output_stream: "out"
node { calculator: "PacketThinnerCalculator" input_stream: "in" output_stream: "out"
  node_options: { [type.googleapis.com/mediapipe.PacketThinnerCalculatorOptions] { period: 10 } } }"#
}

// Returns the lines of five packets. Two of them come too early.
fn five_packets() -> &'static str {
    r#"{"stream":"in","ts":0,"value":1}
{"stream":"in","ts":4,"value":2}
{"stream":"in","ts":10,"value":3}
{"stream":"in","ts":19,"value":4}
{"stream":"in","ts":20,"value":5}"#
}

// Returns the case of these packets. Two of them don't come out.
fn thinned() -> Case<'static> {
    Case {
        graph: thinning(),
        lines: five_packets(),
        limit: 100,
        wanted: "1@0 3@10 5@20 | 0 | 5 ; 5@Done 3@Done ;",
        calls: ";;",
    }
}

#[test]
fn gate_counts(rt: HostRuntime) -> Result<(), Fail> {
    let gate = Counts::new();
    expect_run(&rt, rt.alloc(), &thinned(), 2, &gate)?;
    assert_eq!(rt; gate.entered.load(Ordering::SeqCst), 5);
    assert_eq!(rt; gate.left.load(Ordering::SeqCst), 5);
    Ok(())
}
