//! Which feeders reach which nodes of a plan.

ghost use Rattle.std.specs.Prelude.{◌≡◌, ℕ, ◌+◌, ◌^◌, ◌<◌, ◌≤◌, ◌||◌, All, length, slice_get, IfOk};
ghost use Rattle.std.specs.List.Sorted.{IsNonDecreasingBy, IsPartitionPoint};
ghost use Rattle.mg_calc.specs.Plan.{IsValid, feeders};
ghost use Rattle.mg_throttle.specs.Code.Rows.{is_marked};
ghost use Rattle.mg_throttle.specs.Code.Reach.{sources_among, AreBlank, MarksSources, stream_brings, HasRows, Gathers, GathersTo, IsReachedBy, IsDone};

use crate::row::Row;
use mg_calc::{Edge, Plan, PlanNode, Producer};
use std::alloc::{AllocError, Global};

/// Returns the numbers of the nodes without inputs, in order.
pub(crate) fn sources(alloc: Global, nodes: &[PlanNode]) -> Result<Vec<usize>, AllocError>
    ensures { IfOk result (λ v. v.items ≡ sources_among nodes.now) }
{
    let mut found = Vec::new(alloc);
    for (number, node) in nodes.iter().enumerate() {
        if node.inputs.is_empty() {
            found.push(number)?;
        }
    }
    Ok(found)
}

// Returns `nodes` rows of `feeders` places. No place is marked.
fn blank_rows(alloc: Global, nodes: usize, feeders: usize) -> Result<Vec<Row>, AllocError>
    requires { feeders < 2 ^ 60 }
    ensures { IfOk result (λ v. AreBlank nodes feeders v.items) }
{
    let mut rows = Vec::new(alloc);
    for _ in 0..nodes {
        rows.push(Row::new(alloc, feeders)?)?;
    }
    Ok(rows)
}

// Marks each source in its own row, at its place after the graph inputs.
fn mark_sources(rows: &mut [Row], sources: &[usize], inputs: usize, feeders: usize)
    requires blank { AreBlank (length rows.old) feeders rows.old }
    requires sources { All (λ node. node < length rows.old) sources.now }
    requires feeders { feeders ≡ inputs + length sources.now }
    ensures { MarksSources sources.now inputs feeders (length rows.old) (length sources.now) rows.new }
{
    for place in 0..sources.len() {
        rows[sources[place]].mark(inputs + place);
    }
}

// Adds to a row the marks that come with a stream: that of the graph input, or those of the node that writes it.
fn enter(plan: &Plan, rows: &[Row], stream: u32, row: &mut Row)
    requires valid { IsValid plan.now }
    requires rows { HasRows plan.now rows.now }
    requires row { length row.old ≡ length (feeders plan.now) }
    ensures len { length row.new ≡ length row.old }
    ensures marks { (f : ℕ) → f < length row.old
        → is_marked row.new f ≡ (is_marked row.old f || stream_brings rows.now f (slice_get plan.now.streams stream)) }
{
    if let Some(stream) = plan.streams.get(stream) {
        match stream.producer {
            Producer::Input(input) => row.mark(input as usize),
            Producer::Node { node, .. } => row.join(&rows[node as usize]),
        }
    }
}

// Returns the place of the first edge whose consumer isn't below `node`.
fn first_edge(edges: &[Edge], node: u32) -> usize
    requires { IsNonDecreasingBy (λ e. e.node) edges.now }
    ensures { IsPartitionPoint (λ e. e.node < node) (λ e. node ≤ e.node) edges.now result }
{
    edges.partition_point(|edge| edge.node < node)
}

// Adds to a row the marks that enter a node by its edges, but for back edges.
fn gather(plan: &Plan, rows: &[Row], node: u32, row: &mut Row)
    requires valid { IsValid plan.now }
    requires rows { HasRows plan.now rows.now }
    requires row { length row.old ≡ length (feeders plan.now) }
    ensures { GathersTo plan.now rows.now node (length plan.now.edges) row.old row.new }
{
    let edges = plan.edges.as_slice();
    for k in first_edge(edges, node)..edges.len() {
        let edge = edges[k];
        if edge.node != node {
            break;
        }
        if !edge.back {
            enter(plan, rows, edge.stream, row);
        }
    }
}

// Returns the marks of a node with those that enter it by its edges.
fn gathered(alloc: Global, plan: &Plan, rows: &[Row], node: u32) -> Result<Row, AllocError>
    requires valid { IsValid plan.now }
    requires rows { HasRows plan.now rows.now }
    requires node { node < length plan.now.nodes }
    ensures { IfOk result (λ row. Gathers plan.now rows.now node row) }
{
    let own = &rows[node as usize];
    let mut row = Row::new(alloc, own.len())?;
    row.join(own);
    gather(plan, rows, node, &mut row);
    Ok(row)
}

/// Returns for each node of a plan a row with a mark for each feeder that reaches it.
pub(crate) fn rows_of(alloc: Global, plan: &Plan, sources: &[usize]) -> Result<Vec<Row>, AllocError>
    requires valid { IsValid plan.now }
    requires sources { sources.now ≡ sources_among plan.now.nodes }
    ensures shape { IfOk result (λ v. HasRows plan.now v.items) }
    ensures reached { IfOk result (λ v. (n : ℕ) → n < length plan.now.nodes → IsReachedBy plan.now v.items n) }
{
    let mut rows = own_rows(alloc, plan, sources)?;
    for node in plan.order.as_slice() {
        let row = gathered(alloc, plan, rows.as_slice(), *node)?;
        rows[*node as usize] = row;
    }
    Ok(rows)
}

// Returns for each node of a plan a row whose only mark is that of the node itself, if it is a source.
fn own_rows(alloc: Global, plan: &Plan, sources: &[usize]) -> Result<Vec<Row>, AllocError>
    requires valid { IsValid plan.now }
    requires sources { sources.now ≡ sources_among plan.now.nodes }
    ensures { IfOk result (λ v. IsDone plan.now v.items 0) }
{
    let inputs = plan.inputs.len() as usize;
    let feeders = inputs + sources.len();
    let mut rows = blank_rows(alloc, plan.nodes.len() as usize, feeders)?;
    mark_sources(&mut rows, sources, inputs, feeders);
    Ok(rows)
}
