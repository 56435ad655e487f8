//! Plans split into their cores and their free nodes.

use crate::checks::{graph_of, show_edges, show_numbers};
use mg_calc::{Plan, PlanStream, Producer};
use mg_check::check;
use mg_free::{FreeNode, FreePlan, FreeState, split};
use mg_tables::{Calls, assert_rows};
use mg_time::Timestamp;
use mg_value::{Packet, Payload};
use std::alloc::{AllocError, Global};
use std::fmt::Write;
use std::sync::Arc;
use std::test::Fail;

// Rows of a graph each, and after `=` its core. First stand the plan's numbers of the nodes, each with its inputs, `>` and its
// outputs. Then stand the streams with their producers, the edges, the order, the graph inputs and the graph outputs. Each free
// node follows with its number in the plan, its law, its inputs, `>` and its output.
fn graphs() -> &'static str {
    r#"input_stream: "in" output_stream: "out" node { calculator: "FlowLimiterCalculator" input_stream: "in" input_stream: "FINISHED:done" output_stream: "out" input_stream_info { tag_index: "FINISHED" back_edge: true } } node { calculator: "IntFilterCalculator" input_stream: "out" output_stream: "done" options { [mediapipe.IntFilterCalculatorOptions.ext] { keep: EVEN } } }=nodes 1( 1> 2); streams in<0 out<1 done<0.0; edges 1>0.0 1>1.0; order 0; inputs 0 1; outputs 1; free 0 Limiter { most: 1 }( 0 2> 1)
input_stream: "in" output_stream: "out" node { calculator: "PassThroughCalculator" input_stream: "in" output_stream: "kept" } node { calculator: "FlowLimiterCalculator" input_stream: "kept" input_stream: "FINISHED:out" output_stream: "some" input_stream_info { tag_index: "FINISHED" back_edge: true } options { [mediapipe.FlowLimiterCalculatorOptions.ext] { max_in_flight: 2 } } } node { calculator: "PassThroughCalculator" input_stream: "some" output_stream: "out" }=nodes 0( 0> 2) 2( 1> 3); streams in<0 some<1 kept<0.0 out<1.0; edges 0>0.0 1>1.0 3>2.0; order 0 1; inputs 0 1; outputs 3; free 1 Limiter { most: 2 }( 2 3> 1)
input_stream: "a" input_stream: "b" output_stream: "out" node { calculator: "MergeCalculator" input_stream: "a" input_stream: "b" output_stream: "out" input_stream_handler { input_stream_handler: "ImmediateInputStreamHandler" } }=nodes; streams a<0 b<1 out<2; edges 2>0.0; order; inputs 0 1 2; outputs 2; free 0 FirstCome { lanes: 2 }( 0 1> 2)
input_stream: "a" input_stream: "b" output_stream: "kept" output_stream: "a" node { calculator: "FlowLimiterCalculator" input_stream: "all" input_stream: "FINISHED:b" output_stream: "kept" } node { calculator: "PassThroughCalculator" input_stream: "b" output_stream: "c" } node { calculator: "MergeCalculator" input_stream: "a" input_stream: "c" output_stream: "all" input_stream_handler { input_stream_handler: "ImmediateInputStreamHandler" } }=nodes 1( 1> 4); streams a<0 b<1 kept<2 all<3 c<0.0; edges 1>0.0 2>1.0 0>1.1; order 0; inputs 0 1 2 3; outputs 2 0; free 0 Limiter { most: 1 }( 3 1> 2) free 2 FirstCome { lanes: 2 }( 0 4> 3)
input_stream: "in" output_stream: "out" node { calculator: "PassThroughCalculator" input_stream: "in" output_stream: "out" }=nodes 0( 0> 1); streams in<0 out<0.0; edges 0>0.0 1>1.0; order 0; inputs 0; outputs 1;"#
}

fn show_stream(text: &mut String, stream: &PlanStream) -> Result<(), AllocError> {
    text.push_str(" ")?;
    text.push_str(stream.name.as_str())?;
    match stream.producer {
        Producer::Input(place) => write!(text, "<{place}"),
        Producer::Node { node, port } => write!(text, "<{node}.{port}"),
    }
}

// Appends the numbers of inputs, `>` and the numbers of outputs to a text, in brackets.
fn show_ends(text: &mut String, inputs: &[u32], outputs: &[u32]) -> Result<(), AllocError> {
    text.push_str("(")?;
    show_numbers(text, inputs)?;
    text.push_str(">")?;
    show_numbers(text, outputs)?;
    text.push_str(")")
}

fn show_nodes(text: &mut String, split: &FreePlan) -> Result<(), Fail> {
    text.push_str("nodes")?;
    for place in 0..split.numbers.len() {
        let number = split.numbers.get(place).ok_or("no number")?;
        let node = split.core.nodes.get(place).ok_or("no node")?;
        write!(text, " {number}")?;
        show_ends(text, node.inputs.as_slice(), node.outputs.as_slice())?;
    }
    Ok(())
}

fn show_core(text: &mut String, core: &Plan) -> Result<(), AllocError> {
    text.push_str("; streams")?;
    for stream in core.streams.as_slice() {
        show_stream(text, stream)?;
    }
    text.push_str("; edges")?;
    show_edges(text, core.edges.as_slice())?;
    text.push_str("; order")?;
    show_numbers(text, core.order.as_slice())?;
    text.push_str("; inputs")?;
    show_numbers(text, core.inputs.as_slice())?;
    text.push_str("; outputs")?;
    show_numbers(text, core.outputs.as_slice())
}

fn show_free(text: &mut String, free: &FreeNode) -> Result<(), AllocError> {
    write!(text, " free {} {:?}", free.node, free.law)?;
    show_ends(text, free.inputs.as_slice(), &[free.output])
}

fn split_graph(alloc: Global, text: &str) -> Result<FreePlan, Fail> {
    let graph = graph_of(alloc, text)?;
    if graph.nodes.len() > 4096 {
        return Err(Fail::from("too many nodes"));
    }
    match check(alloc, &graph, &[]) {
        Ok(plan) => Ok(split(alloc, &plan)?),
        Err(_) => Err(Fail::from("a graph that is refused")),
    }
}

#[derive(Drop)]
struct Splitting;

impl Calls for Splitting {
    fn answer(&mut self, alloc: Global, call: &str) -> Result<String, Fail> {
        let split = split_graph(alloc, call)?;
        let mut text = String::new(alloc);
        show_nodes(&mut text, &split)?;
        show_core(&mut text, &split.core)?;
        text.push_str(";")?;
        for free in split.free.as_slice() {
            show_free(&mut text, free)?;
        }
        Ok(text)
    }
}

#[test]
fn plans_are_split(rt: HostRuntime) -> Result<(), Fail> {
    assert_rows(rt.alloc(), &mut Splitting, graphs())
}

fn arrives(alloc: Global, state: &mut FreeState, at: i64) -> Result<bool, Fail> {
    let packet = Packet {
        at: Timestamp::of_range(at).ok_or("no time")?,
        payload: Arc::new(alloc, Payload::Int(1))?,
    };
    if !packet.at.is_allowed() {
        return Err(Fail::from("a time that no packet may have"));
    }
    Ok(state.arrive(0, &packet)?)
}

#[test]
fn a_limiter_of_a_split_plan_lays_the_first_packet(rt: HostRuntime) -> Result<(), Fail> {
    let alloc = rt.alloc();
    let graph = graphs().split('=').next().ok_or("no graph")?;
    let split = split_graph(alloc, graph)?;
    let free = split.free.get(0).ok_or("no free node")?;
    let mut state = FreeState::new(alloc, free)?;
    assert!(&rt; arrives(alloc, &mut state, 10)?);
    assert!(&rt; !arrives(alloc, &mut state, 20)?);
    Ok(())
}
