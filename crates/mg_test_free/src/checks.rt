//! Graphs with free nodes, as the check takes or refuses them.

use mg_calc::{Edge, Plan};
use mg_check::{CheckFault, check};
use mg_config::{GraphConfig, read};
use mg_tables::{Calls, assert_rows};
use mg_text::parse;
use std::alloc::{AllocError, Global};
use std::fmt::Write;
use std::test::Fail;

// Rows of a graph each. After `=` stand the law, the limit of sets in flight and the policy of node 0, and then the order and the
// edges. An edge is written as its stream, `>`, its node, `.` and its port, and `b` for a back edge. If the graph is refused, the
// reason stands there instead.
fn graphs() -> &'static str {
    r#"input_stream: "in" output_stream: "out" node { calculator: "FlowLimiterCalculator" input_stream: "in" input_stream: "FINISHED:done" output_stream: "out" input_stream_info { tag_index: "FINISHED" back_edge: true } } node { calculator: "IntFilterCalculator" input_stream: "out" output_stream: "done" options { [mediapipe.IntFilterCalculatorOptions.ext] { keep: EVEN } } }=Limiter { most: 1 } 1 Default; order 0 1; edges 0>0.0 2>0.1b 1>1.0 1>2.0
input_stream: "in" output_stream: "out" node { calculator: "FlowLimiterCalculator" input_stream: "in" input_stream: "FINISHED:done" output_stream: "out" input_stream_info { tag_index: "FINISHED" back_edge: true } } node { calculator: "PassThroughCalculator" input_stream: "out" output_stream: "done" }=Limiter { most: 1 } 1 Default; order 0 1; edges 0>0.0 2>0.1b 1>1.0 1>2.0
input_stream: "in" input_stream: "done" output_stream: "out" node { calculator: "FlowLimiterCalculator" input_stream: "in" input_stream: "FINISHED:done" output_stream: "out" }=Limiter { most: 1 } 1 Default; order 0; edges 0>0.0 1>0.1 2>1.0
input_stream: "in" input_stream: "done" output_stream: "out" node { calculator: "FlowLimiterCalculator" input_stream: "in" input_stream: "FINISHED:done" output_stream: "out" input_stream_handler { input_stream_handler: "ImmediateInputStreamHandler" } }=Limiter { most: 1 } 1 Default; order 0; edges 0>0.0 1>0.1 2>1.0
input_stream: "in" input_stream: "done" output_stream: "out" node { calculator: "FlowLimiterCalculator" input_stream: "in" input_stream: "FINISHED:done" output_stream: "out" options { [mediapipe.FlowLimiterCalculatorOptions.ext] { max_in_flight: 3 } } }=Limiter { most: 3 } 1 Default; order 0; edges 0>0.0 1>0.1 2>1.0
input_stream: "in" input_stream: "done" output_stream: "out" node { calculator: "FlowLimiterCalculator" input_stream: "in" input_stream: "FINISHED:done" output_stream: "out" options { [mediapipe.FlowLimiterCalculatorOptions.ext] { max_in_flight: 2147483647 } } }=Limiter { most: 2147483647 } 1 Default; order 0; edges 0>0.0 1>0.1 2>1.0
input_stream: "in" input_stream: "done" output_stream: "out" node { calculator: "FlowLimiterCalculator" input_stream: "in" input_stream: "FINISHED:done" output_stream: "out" max_in_flight: 4 }=Limiter { most: 1 } 1 Default; order 0; edges 0>0.0 1>0.1 2>1.0
input_stream: "in" input_stream: "done" output_stream: "out" node { calculator: "FlowLimiterCalculator" input_stream: "in" input_stream: "FINISHED:done" output_stream: "out" input_stream_handler { input_stream_handler: "DefaultInputStreamHandler" } }=Unsupported 0
input_stream: "in" input_stream: "done" output_stream: "out" node { calculator: "FlowLimiterCalculator" input_stream: "in" input_stream: "FINISHED:done" output_stream: "out" input_stream_handler { input_stream_handler: "MuxInputStreamHandler" } }=Unsupported 0
input_stream: "in" input_stream: "done" output_stream: "out" node { calculator: "FlowLimiterCalculator" input_stream: "in" input_stream: "FINISHED:done" output_stream: "out" options { [mediapipe.FlowLimiterCalculatorOptions.ext] { max_in_flight: 0 } } }=BadOptions 0
input_stream: "in" input_stream: "done" output_stream: "out" node { calculator: "FlowLimiterCalculator" input_stream: "in" input_stream: "FINISHED:done" output_stream: "out" options { [mediapipe.FlowLimiterCalculatorOptions.ext] { max_in_flight: 2147483648 } } }=BadOptions 0
input_stream: "in" input_stream: "done" output_stream: "out" node { calculator: "FlowLimiterCalculator" input_stream: "in" input_stream: "FINISHED:done" output_stream: "out" options { [mediapipe.FlowLimiterCalculatorOptions.ext] { max_in_flight: 1 max_in_flight: 1 } } }=BadOptions 0
input_stream: "in" input_stream: "done" output_stream: "out" node { calculator: "FlowLimiterCalculator" input_stream: "in" input_stream: "FINISHED:done" output_stream: "out" options { [mediapipe.FlowLimiterCalculatorOptions.ext] { max_in_queue: 1 } } }=BadOptions 0
input_stream: "in" output_stream: "out" node { calculator: "FlowLimiterCalculator" input_stream: "in" input_stream: "FINISHED:done" output_stream: "out" } node { calculator: "PassThroughCalculator" input_stream: "out" output_stream: "done" }=Cycle 0 1
input_stream: "in" input_stream: "done" output_stream: "out" node { calculator: "FlowLimiterCalculator" input_stream: "in" input_stream: "FINISHED:done" output_stream: "out" input_stream_info { tag_index: ":0" back_edge: true } }=BackEdgeMisplaced 0
input_stream: "in" input_stream: "done" output_stream: "out" node { calculator: "FlowLimiterCalculator" input_stream: "in" input_stream: "FINISHED:done" output_stream: "out" input_stream_info { tag_index: "FINISHED:1" back_edge: true } }=BackEdgeMisplaced 0
input_stream: "in" output_stream: "out" node { calculator: "FlowLimiterCalculator" input_stream: "in" output_stream: "out" }=BadPorts 0
input_stream: "in" input_stream: "done" output_stream: "out" node { calculator: "FlowLimiterCalculator" input_stream: "in" input_stream: "FINISHED:done" output_stream: "out" output_stream: "ALLOW:allow" }=BadPorts 0
input_stream: "a" input_stream: "b" output_stream: "out" node { calculator: "MergeCalculator" input_stream: "a" input_stream: "b" output_stream: "out" input_stream_handler { input_stream_handler: "ImmediateInputStreamHandler" } }=FirstCome { lanes: 2 } 1 Default; order 0; edges 0>0.0 1>0.1 2>1.0
input_stream: "a" input_stream: "b" output_stream: "out" node { calculator: "MergeCalculator" input_stream: "a" input_stream: "b" output_stream: "out" input_stream_handler { input_stream_handler: "ImmediateInputStreamHandler" } max_in_flight: 4 }=FirstCome { lanes: 2 } 1 Default; order 0; edges 0>0.0 1>0.1 2>1.0
input_stream: "a" input_stream: "b" output_stream: "out" node { calculator: "MergeCalculator" input_stream: "a" input_stream: "b" output_stream: "out" }=Merge { lanes: 2 } 1 Default; order 0; edges 0>0.0 1>0.1 2>1.0
input_stream: "a" input_stream: "b" output_stream: "out" node { calculator: "MergeCalculator" input_stream: "a" input_stream: "b" output_stream: "out" input_stream_handler { input_stream_handler: "DefaultInputStreamHandler" } }=Merge { lanes: 2 } 1 Default; order 0; edges 0>0.0 1>0.1 2>1.0
input_stream: "a" input_stream: "b" output_stream: "out" node { calculator: "MergeCalculator" input_stream: "a" input_stream: "b" output_stream: "out" input_stream_handler { input_stream_handler: "MuxInputStreamHandler" } }=Unsupported 0
input_stream: "a" input_stream: "b" output_stream: "out" node { calculator: "MergeCalculator" input_stream: "a" input_stream: "b" output_stream: "out" input_stream_handler { input_stream_handler: "SyncSetInputStreamHandler" } }=Unsupported 0
input_stream: "a" input_stream: "b" output_stream: "out" node { calculator: "MergeCalculator" input_stream: "a" input_stream: "b" output_stream: "out" input_stream_handler { input_stream_handler: "ImmediateInputStreamHandler" } input_stream_info { tag_index: ":1" back_edge: true } }=BackEdgeMisplaced 0
input_stream: "a" output_stream: "b" node { calculator: "PassThroughCalculator" input_stream: "a" output_stream: "b" input_stream_handler { input_stream_handler: "ImmediateInputStreamHandler" } }=Unsupported 0
input_stream: "in" output_stream: "prev" node { calculator: "PreviousLoopbackCalculator" input_stream: "MAIN:in" input_stream: "LOOP:in" output_stream: "PREV_LOOP:prev" input_stream_handler { input_stream_handler: "ImmediateInputStreamHandler" } }=Unsupported 0"#
}

/// Reads the graph of a text.
pub fn graph_of(alloc: Global, text: &str) -> Result<GraphConfig, Fail> {
    let tree = parse(alloc, text.as_bytes())?;
    Ok(read(alloc, &tree)?)
}

/// Appends edges to a text, each as its stream, `>`, its node, `.` and its port, and `b` for a back edge.
pub fn show_edges(text: &mut String, edges: &[Edge]) -> Result<(), AllocError> {
    for edge in edges {
        let back = if edge.back { "b" } else { "" };
        write!(text, " {}>{}.{}{back}", edge.stream, edge.node, edge.port)?;
    }
    Ok(())
}

/// Appends numbers to a text, a space before each.
pub fn show_numbers(text: &mut String, numbers: &[u32]) -> Result<(), AllocError> {
    for number in numbers {
        write!(text, " {number}")?;
    }
    Ok(())
}

fn show_plan(alloc: Global, plan: &Plan) -> Result<String, Fail> {
    let node = plan.nodes.get(0).ok_or("no node")?;
    let mut text = format!(in alloc;
        "{:?} {} {:?}; order",
        node.law, node.in_flight, node.policy
    )?;
    show_numbers(&mut text, plan.order.as_slice())?;
    text.push_str("; edges")?;
    show_edges(&mut text, plan.edges.as_slice())?;
    Ok(text)
}

fn show_fault(alloc: Global, fault: &CheckFault) -> Result<String, AllocError> {
    match fault {
        CheckFault::BadPorts { node } => format!(in alloc; "BadPorts {node}"),
        CheckFault::BadOptions { node } => format!(in alloc; "BadOptions {node}"),
        CheckFault::Unsupported { node, .. } => format!(in alloc; "Unsupported {node}"),
        CheckFault::BackEdgeMisplaced { node } => format!(in alloc; "BackEdgeMisplaced {node}"),
        CheckFault::Cycle { nodes } => {
            let mut text = String::from_str(alloc, "Cycle")?;
            show_numbers(&mut text, nodes.as_slice())?;
            Ok(text)
        }
        _ => format!(in alloc; "another fault"),
    }
}

#[derive(Drop)]
struct Checking;

impl Calls for Checking {
    fn answer(&mut self, alloc: Global, call: &str) -> Result<String, Fail> {
        let graph = graph_of(alloc, call)?;
        if graph.nodes.len() > 4096 {
            return Err(Fail::from("too many nodes"));
        }
        match check(alloc, &graph, &[]) {
            Ok(plan) => show_plan(alloc, &plan),
            Err(fault) => Ok(show_fault(alloc, &fault)?),
        }
    }
}

#[test]
fn graphs_with_free_nodes(rt: HostRuntime) -> Result<(), Fail> {
    assert_rows(rt.alloc(), &mut Checking, graphs())
}
