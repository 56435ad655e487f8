//! The kinds that meet at streams.
ghost use Rattle.std.specs.Prelude.{◌≡◌, ◌++◌, IfOk, OnOk, map, position};
ghost use Rattle.mg_value.specs.declared.kind.Kind.TheVariants.{Any};
ghost use Rattle.mg_config.specs.Config.{graph_view};
ghost use Rattle.mg_check.specs.DraftView.{drafts_view};
ghost use Rattle.mg_check.specs.Meeting as meeting;
ghost use Rattle.mg_check.specs.Joining as joining;
ghost use Rattle.mg_check.specs.Code.Meets as meets;

use crate::draft::Draft;
use crate::inferred::Inferred;
use mg_calc::{Edge, PortKind};
use mg_config::GraphConfig;
use mg_names::PortMap;
use mg_value::Kind;
use std::alloc::{AllocError, Global};

fn add_any(out: &mut Vec<Kind>, ports: &PortMap) -> Result<(), AllocError>
    ensures { OnOk result (out.new.items ≡ out.old.items ++ map (λ p. Any) ports.now) }
{
    for _ in 0..ports.len() {
        out.push(Kind::Any)?;
    }
    Ok(())
}

fn add_kinds(out: &mut Vec<Kind>, ports: &[PortKind]) -> Result<(), AllocError>
    ensures { OnOk result (out.new.items ≡ out.old.items ++ joining.kinds ports.now) }
{
    for port in ports {
        out.push(port.kind)?;
    }
    Ok(())
}

/// Returns the kind of the port that writes each stream, which is `Any` for a graph input.
fn written_kinds(
    alloc: Global,
    graph: &GraphConfig,
    drafts: &[Draft],
) -> Result<Vec<Kind>, AllocError>
    ensures { IfOk result (λ kinds. kinds.items ≡ joining.written_kinds (graph_view graph.now) (drafts_view drafts.now)) }
{
    let mut kinds = Vec::new(alloc);
    add_any(&mut kinds, &graph.inputs)?;
    for draft in drafts {
        add_kinds(&mut kinds, draft.shape.outputs.as_slice())?;
    }
    Ok(kinds)
}

/// Returns the kind of the port that each edge leads to, which is `Any` for a graph output.
fn read_kinds(alloc: Global, graph: &GraphConfig, drafts: &[Draft]) -> Result<Vec<Kind>, AllocError>
    ensures { IfOk result (λ kinds. kinds.items ≡ joining.read_kinds (graph_view graph.now) (drafts_view drafts.now)) }
{
    let mut kinds = Vec::new(alloc);
    for draft in drafts {
        add_kinds(&mut kinds, draft.shape.inputs.as_slice())?;
    }
    add_any(&mut kinds, &graph.outputs)?;
    Ok(kinds)
}

fn begin(alloc: Global, kinds: &[Kind]) -> Result<Vec<Inferred>, AllocError>
    ensures { IfOk result (λ mets. mets.items ≡ map meets.begun kinds.now) }
{
    let mut mets = Vec::new(alloc);
    for kind in kinds {
        mets.push(Inferred {
            kind: *kind,
            clash: false,
        })?;
    }
    Ok(mets)
}

fn is_any(kind: Kind) -> bool
    ensures { result ≡ meeting.is_any kind }
{
    match kind {
        Kind::Any => true,
        _ => false,
    }
}

fn is_kind(a: Kind, b: Kind) -> bool
    ensures { result ≡ meeting.is_kind a b }
{
    match (a, b) {
        (Kind::Any, Kind::Any) => true,
        (Kind::Flag, Kind::Flag) => true,
        (Kind::Int, Kind::Int) => true,
        (Kind::Text, Kind::Text) => true,
        (Kind::Items, Kind::Items) => true,
        (Kind::Record, Kind::Record) => true,
        _ => false,
    }
}

fn meet(inferred: Inferred, kind: Kind) -> Inferred
    ensures { result ≡ meets.meet inferred kind }
{
    if is_any(inferred.kind) {
        return Inferred {
            kind,
            clash: inferred.clash,
        };
    }
    Inferred {
        kind: inferred.kind,
        clash: inferred.clash || !is_any(kind) && !is_kind(kind, inferred.kind),
    }
}

fn meet_at(mets: &mut Vec<Inferred>, stream: u32, kind: Kind)
    ensures { mets.new.items ≡ meets.meet_at mets.old.items stream kind }
{
    let stream = stream as usize;
    if stream < mets.len() {
        mets[stream] = meet(mets[stream], kind);
    }
}

fn meet_all(mets: &mut Vec<Inferred>, edges: &[Edge], kinds: &[Kind])
    ensures { mets.new.items ≡ meets.meet_all mets.old.items (meets.readings_of edges.now kinds.now) }
{
    for place in 0..edges.len().min(kinds.len()) {
        let edge = &edges[place];
        let kind = &kinds[place];
        meet_at(mets, edge.stream, *kind);
    }
}

/// Returns for each stream its kind, and whether two kinds clash there, by the edges of the graph.
pub(crate) fn meetings_of(
    alloc: Global,
    graph: &GraphConfig,
    drafts: &[Draft],
    edges: &[Edge],
) -> Result<Vec<Inferred>, AllocError>
    ensures { IfOk result (λ mets. edges.now ≡ joining.edges (graph_view graph.now) (drafts_view drafts.now)
        → mets.items ≡ map meets.inferred_of (joining.stream_meetings (graph_view graph.now) (drafts_view drafts.now))) }
{
    let written = written_kinds(alloc, graph, drafts)?;
    let read = read_kinds(alloc, graph, drafts)?;
    let mut mets = begin(alloc, written.as_slice())?;
    meet_all(&mut mets, edges, read.as_slice());
    Ok(mets)
}

/// Returns the number of the first stream at which two kinds clash, or none if there is no such stream.
pub(crate) fn clash_in(mets: &[Inferred]) -> Option<usize>
    ensures { result ≡ position (λ inferred. inferred.clash) mets.now }
{
    mets.iter().position(|inferred| inferred.clash)
}
