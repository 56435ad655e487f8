//! The edges of a plan, with the words of their engines, as they are found at run time.
ghost use Rattle.std.specs.Prelude.{◌≡◌, ◌<◌, ◌^◌, ℕ, map, IfOk, Some, slice_get};
ghost use Rattle.mg_calc.specs.declared.edge.Edge.{Edge as EdgeView};
ghost use Rattle.mg_turns.specs.Words.{word_at, engine_of};
ghost use Rattle.mg_turns.specs.Parts.{writer_by, source_at};
ghost use Rattle.mg_turns.specs.Code.Ways.{way_of};

use mg_calc::{Edge, Plan, Producer};
use std::alloc::{AllocError, Global};

/// An edge, with the word of the engine from which it leads.
#[derive(Clone, Copy)]
pub struct Way {
    pub edge: Edge,
    pub source: u32,
}

// The word of the engine that writes a stream.
fn writer_word(nodes: u32, producer: Producer) -> u32
    requires { word_at nodes (engine_of (writer_by (Some producer))) < 2 ^ 32 }
    ensures { result ≡ word_at nodes (engine_of (writer_by (Some producer))) }
{
    match producer {
        Producer::Input(input) => 2 * nodes + 1 + input,
        Producer::Node { node, .. } => 2 * node + 1,
    }
}

// The word of the engine from which an edge leads.
fn source_of(plan: &Plan, edge: Edge) -> u32
    requires { source_at plan.now edge < 2 ^ 32 }
    ensures { result ≡ source_at plan.now edge }
{
    let producer = match plan.streams.get(edge.stream) {
        Some(stream) => stream.producer,
        None => Producer::Input(0),
    };
    writer_word(plan.nodes.len(), producer)
}

/// The edges of a plan, each with the word of the engine from which it leads.
pub(crate) fn ways_of(alloc: Global, plan: &Plan) -> Result<Vec<Way>, AllocError>
    requires { (k : ℕ) (e : EdgeView) → slice_get plan.now.edges k ≡ Some e → source_at plan.now e < 2 ^ 32 }
    ensures { IfOk result (λ v. v.items ≡ map (way_of plan.now) plan.now.edges) }
{
    let edges = plan.edges.as_slice();
    let mut ways = Vec::with_capacity(alloc, edges.len())?;
    for i in 0..edges.len() {
        let edge = edges[i];
        let source = source_of(plan, edge);
        ways.push(Way { edge, source })?;
    }
    Ok(ways)
}
