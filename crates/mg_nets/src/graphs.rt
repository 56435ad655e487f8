//! The graphs that are tried, and packet lines for several of them.
use std::alloc::Global;
use std::test::Fail;

/// Returns a graph with a limit of its queues; a limit below 0 is none.
pub(crate) fn limited(alloc: Global, limit: i32, graph: &str) -> Result<String, Fail> {
    Ok(format!(in alloc; "max_queue_size: {limit} {graph}")?)
}

/// Returns a graph of one node that passes packets through.
pub fn passing() -> &'static str {
    r#"input_stream: "in" output_stream: "out"
node { calculator: "PassThroughCalculator" input_stream: "in" output_stream: "out" }"#
}

/// Returns a graph that merges two streams into one.
pub fn merging() -> &'static str {
    r#"input_stream: "a" input_stream: "b" output_stream: "out"
node { calculator: "MergeCalculator" input_stream: "a" input_stream: "b" output_stream: "out" }"#
}

/// Returns a graph in which a stream selects between two other streams, packet by packet.
pub(crate) fn choosing() -> &'static str {
    r#"input_stream: "a" input_stream: "b" input_stream: "sel" output_stream: "out"
node { calculator: "MuxCalculator" input_stream: "INPUT:0:a" input_stream: "INPUT:1:b"
  input_stream: "SELECT:sel" output_stream: "OUTPUT:out" }"#
}

/// Returns a graph with a loop: each sum is that of a packet and of the sum before.
pub fn summing() -> &'static str {
    r#"input_stream: "in" output_stream: "sum"
node { calculator: "PreviousLoopbackCalculator" input_stream: "MAIN:in" input_stream: "LOOP:sum"
  input_stream_info { tag_index: "LOOP" back_edge: true } output_stream: "PREV_LOOP:prev" }
node { calculator: "IntSumCalculator" input_stream: "in" input_stream: "prev" output_stream: "sum" }"#
}

/// Returns a graph of sums. Only the even sums come back, so that the loop waits after an odd sum.
pub fn stalling() -> &'static str {
    r#"input_stream: "in" output_stream: "sum"
node { calculator: "PreviousLoopbackCalculator" input_stream: "MAIN:in" input_stream: "LOOP:kept"
  input_stream_info { tag_index: "LOOP" back_edge: true } output_stream: "PREV_LOOP:prev" }
node { calculator: "IntSumCalculator" input_stream: "in" input_stream: "prev" output_stream: "sum" }
node { calculator: "IntFilterCalculator" input_stream: "sum" output_stream: "kept"
  options { [mediapipe.IntFilterCalculatorOptions.ext] { keep: EVEN } } }"#
}

/// Returns a graph with a source whose packets wait at a merge for a filter that lets none through.
pub(crate) fn throttling() -> &'static str {
    r#"output_stream: "out"
node { calculator: "CountingSourceCalculator" output_stream: "n"
  node_options: { [type.googleapis.com/mediapipe.CountingSourceCalculatorOptions] { count: 3 } } }
node { calculator: "IntFilterCalculator" input_stream: "n" output_stream: "f"
  node_options: { [type.googleapis.com/mediapipe.IntFilterCalculatorOptions] { keep: NEGATIVE } } }
node { calculator: "MergeCalculator" input_stream: "f" input_stream: "n" output_stream: "out" }"#
}

/// Returns a graph of one node that may work on four packets at once.
pub fn adding() -> &'static str {
    r#"input_stream: "in" output_stream: "out"
node { calculator: "IntMapCalculator" input_stream: "in" output_stream: "out" max_in_flight: 4
  options { [mediapipe.IntMapCalculatorOptions.ext] { op: ADD operand: 10 } } }"#
}

/// Returns a graph with two user-supplied calculators of one kind: they count all packets, and the even ones.
pub fn counting() -> &'static str {
    r#"input_stream: "in" output_stream: "all" output_stream: "some"
node { calculator: "TallyCalculator" input_stream: "in" output_stream: "all" }
node { calculator: "IntFilterCalculator" input_stream: "in" output_stream: "even"
  options { [mediapipe.IntFilterCalculatorOptions.ext] { keep: EVEN } } }
node { calculator: "TallyCalculator" input_stream: "even" output_stream: "some" }"#
}

/// Returns a graph of one node. Its calculator is user-supplied, and counts all packets.
pub(crate) fn tallying() -> &'static str {
    r#"input_stream: "in" output_stream: "out"
node { calculator: "TallyCalculator" input_stream: "in" output_stream: "out" }"#
}

/// Returns the lines of three packets on one stream.
pub(crate) fn one_two_three() -> &'static str {
    r#"{"stream":"in","ts":10,"value":1}
{"stream":"in","ts":20,"value":2}
{"stream":"in","ts":30,"value":3}"#
}
