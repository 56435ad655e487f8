//! The producers of streams, and the links between nodes that write streams and nodes that read them.
ghost use Rattle.std.specs.Prelude.{◌≡◌, ◌<◌, ◌^◌, ◌++◌, IfOk, OnOk, length, map, filter_map};
ghost use Rattle.mg_config.specs.Config.{graph_view};
ghost use Rattle.mg_calc.specs.Plan.{numbers};
ghost use Rattle.mg_check.specs.DraftView.{drafts_view};
ghost use Rattle.mg_check.specs.Joining as joining;
ghost use Rattle.mg_check.specs.Code.Writers.{sources_from};

use crate::counting::count_of;
use crate::draft::Draft;
use crate::ordering::Link;
use mg_calc::{Edge, Producer};
use mg_config::GraphConfig;
use std::alloc::{AllocError, Global};

fn add_inputs(out: &mut Vec<Producer>, count: u32) -> Result<(), AllocError>
    ensures { OnOk result (out.new.items ≡ out.old.items ++ map Producer.Input (numbers count)) }
{
    for number in 0..count {
        out.push(Producer::Input(number))?;
    }
    Ok(())
}

fn add_outputs(out: &mut Vec<Producer>, node: u32, count: u32) -> Result<(), AllocError>
    ensures { OnOk result (out.new.items ≡ out.old.items ++ map (λ port. Producer.Node node port) (numbers count)) }
{
    for port in 0..count {
        out.push(Producer::Node { node, port })?;
    }
    Ok(())
}

/// Returns the producer of each stream: a graph input, or an output of a node.
pub(crate) fn writers_of(
    alloc: Global,
    graph: &GraphConfig,
    drafts: &[Draft],
) -> Result<Vec<Producer>, AllocError>
    requires { length drafts.now < 2 ^ 32 }
    ensures { IfOk result (λ writers. writers.items ≡ joining.writers (graph_view graph.now) (drafts_view drafts.now)) }
{
    let mut writers = Vec::new(alloc);
    add_inputs(&mut writers, graph.inputs.len())?;
    for (node, draft) in drafts.iter().enumerate() {
        let count = count_of(draft.outputs.as_slice())?;
        add_outputs(&mut writers, node as u32, count)?;
    }
    Ok(writers)
}

fn link_of(writers: &[Producer], edge: &Edge) -> Option<Link>
    ensures { result ≡ joining.link_of writers.now edge.now }
{
    if edge.back {
        return None;
    }
    match writers.get(edge.stream as usize) {
        Some(Producer::Node { node, .. }) => Some(Link {
            from: *node,
            to: edge.node,
        }),
        Some(Producer::Input(_)) => None,
        None => None,
    }
}

/// Returns the links of nodes: one for each edge that isn't back and whose stream a node writes.
pub(crate) fn links_of(
    alloc: Global,
    writers: &[Producer],
    edges: &[Edge],
) -> Result<Vec<Link>, AllocError>
    ensures { IfOk result (λ links. links.items ≡ filter_map (joining.link_of writers.now) edges.now) }
{
    let mut links = Vec::new(alloc);
    for edge in edges {
        if let Some(link) = link_of(writers, edge) {
            links.push(link)?;
        }
    }
    Ok(links)
}

/// Returns the numbers of the nodes without inputs, ascending.
pub(crate) fn sources_of(alloc: Global, drafts: &[Draft]) -> Result<Vec<u32>, AllocError>
    requires { length drafts.now < 2 ^ 32 }
    ensures { IfOk result (λ sources. sources.items ≡ sources_from 0 (drafts_view drafts.now)) }
{
    let mut sources = Vec::new(alloc);
    for (node, draft) in drafts.iter().enumerate() {
        if draft.inputs.is_empty() {
            sources.push(node as u32)?;
        }
    }
    Ok(sources)
}
