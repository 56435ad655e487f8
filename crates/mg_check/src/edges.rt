ghost use Rattle.std.specs.Prelude.{◌≡◌, ◌<◌, ◌^◌, ◌++◌, None, IfOk, OnOk, length};
ghost use Rattle.mg_kinds.specs.Kinds.{names_of};
ghost use Rattle.mg_subgraph.specs.Refusals.{port_names};
ghost use Rattle.mg_check.specs.DraftView.{drafts_view};
ghost use Rattle.mg_check.specs.Joining as joining;
ghost use Rattle.mg_check.specs.Code.Edges.{edge_at, node_edges_from as of_nodes};

use crate::counting::count_of;
use crate::draft::Draft;
use crate::gathering::port_texts;
use crate::names::Names;
use mg_calc::Edge;
use mg_names::PortMap;
use std::alloc::{AllocError, Global};

// Whether the edge into a port is a back edge. `back` is the port that is marked as a back edge, if there is one.
fn is_back_at(back: Option<u32>, port: u32) -> bool
    ensures { result ≡ joining.is_back_at back port }
{
    match back {
        Some(back) => back == port,
        None => false,
    }
}

fn edge_into(streams: &Names, node: u32, back: Option<u32>, port: u32, text: &str) -> Edge
    ensures { result ≡ edge_at streams.now node back (port, text.now) }
{
    Edge {
        stream: streams.number(text),
        node,
        port,
        back: is_back_at(back, port),
    }
}

fn add_edges(
    out: &mut Vec<Edge>,
    streams: &Names,
    node: u32,
    back: Option<u32>,
    inputs: &[&str],
) -> Result<(), AllocError>
    ensures { OnOk result (out.new.items ≡ out.old.items ++ joining.edges_into streams.now node back (names_of inputs.now)) }
{
    for port in 0..count_of(inputs)? {
        let text = &inputs[port as usize];
        out.push(edge_into(streams, node, back, port, *text))?;
    }
    Ok(())
}

/// Returns the edges into nodes, in the order of the nodes and of their ports.
pub(crate) fn node_edges(
    alloc: Global,
    streams: &Names,
    drafts: &[Draft],
) -> Result<Vec<Edge>, AllocError>
    requires { length drafts.now < 2 ^ 32 }
    ensures { IfOk result (λ edges. edges.items ≡ of_nodes streams.now 0 (drafts_view drafts.now)) }
{
    let mut edges = Vec::new(alloc);
    for (node, draft) in drafts.iter().enumerate() {
        add_edges(
            &mut edges,
            streams,
            node as u32,
            draft.back,
            draft.inputs.as_slice(),
        )?;
    }
    Ok(edges)
}

/// Appends the edges into the collector. The collector's ports are the graph outputs, and its number as a consumer is `node`.
pub(crate) fn add_collector(
    alloc: Global,
    edges: &mut Vec<Edge>,
    streams: &Names,
    node: u32,
    outputs: &PortMap,
) -> Result<(), AllocError>
    ensures { OnOk result (edges.new.items ≡ edges.old.items ++ joining.edges_into streams.now node None (port_names outputs.now)) }
{
    let texts = port_texts(alloc, outputs)?;
    add_edges(edges, streams, node, None, texts.as_slice())
}
