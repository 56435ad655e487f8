ghost use Rattle.std.specs.Prelude.{◌≡◌, ◌≤◌, IfOk, length};
ghost use Rattle.mg_config.specs.Config.{graph_view};
ghost use Rattle.mg_check.specs.DraftView.{drafts_view};
ghost use Rattle.mg_check.specs.Joining as joining;
ghost use Rattle.mg_check.specs.Code.Refusing.{AreWired};

use crate::draft::Draft;
use crate::edges::{add_collector, node_edges};
use crate::inferred::Inferred;
use crate::linking::{links_of, sources_of, writers_of};
use crate::meeting::meetings_of;
use crate::names::Names;
use crate::ordering::order_of;
use mg_calc::{Edge, Producer};
use mg_config::GraphConfig;
use std::alloc::{AllocError, Global};

/// How the streams of a graph are wired: the edges, what meets at each stream and who writes it, and the order of the
/// nodes.
#[derive(Drop)]
pub(crate) struct Wiring {
    pub(crate) edges: Vec<Edge>,
    pub(crate) mets: Vec<Inferred>,
    pub(crate) writers: Vec<Producer>,
    pub(crate) order: Vec<u32>,
}

// Returns the order of the nodes, by the edges into them.
fn ordered(
    alloc: Global,
    graph: &GraphConfig,
    drafts: &[Draft],
    writers: &[Producer],
    edges: &[Edge],
) -> Result<Vec<u32>, AllocError>
    requires nodes { length drafts.now ≤ 4096 }
    requires writers { writers.now ≡ joining.writers (graph_view graph.now) (drafts_view drafts.now) }
    requires edges { edges.now ≡ joining.node_edges (graph_view graph.now) (drafts_view drafts.now) }
    ensures { IfOk result (λ order. order.items ≡ joining.order (graph_view graph.now) (drafts_view drafts.now)) }
{
    let links = links_of(alloc, writers, edges)?;
    let sources = sources_of(alloc, drafts)?;
    order_of(
        alloc,
        drafts.len() as u32,
        sources.as_slice(),
        links.as_slice(),
    )
}

/// Returns how the nodes of a graph are wired, by the names of its streams.
pub(crate) fn wire(
    alloc: Global,
    graph: &GraphConfig,
    drafts: &[Draft],
    streams: &Names,
) -> Result<Wiring, AllocError>
    requires nodes { length drafts.now ≤ 4096 }
    requires streams { streams.now ≡ joining.stream_names (graph_view graph.now) (drafts_view drafts.now) }
    ensures { IfOk result (λ wiring. AreWired wiring (graph_view graph.now) (drafts_view drafts.now)) }
{
    let mut edges = node_edges(alloc, streams, drafts)?;
    let writers = writers_of(alloc, graph, drafts)?;
    let order = ordered(alloc, graph, drafts, writers.as_slice(), edges.as_slice())?;
    add_collector(
        alloc,
        &mut edges,
        streams,
        drafts.len() as u32,
        &graph.outputs,
    )?;
    let mets = meetings_of(alloc, graph, drafts, edges.as_slice())?;
    Ok(Wiring {
        edges,
        mets,
        writers,
        order,
    })
}
