ghost use Rattle.std.specs.Prelude.{◌≡◌, IfOk, map, option_copied, slice_get, option_and_then, option_to_list, []};
ghost use Rattle.mg_feed.specs.Graph.{numbered, input_streams, given_sides, placed_side, inputs_of};
ghost use Rattle.mg_feed.specs.Code.Graphs.{graph_view};

use crate::{Placed, Places};
use mg_calc::{Plan, PlanStream, Side, SideList, SideValue};
use mg_value::Kind;
use std::alloc::{AllocError, Global};

/// The inputs of a graph, found by their names.
pub struct Graph {
    /// The input streams.
    pub streams: Places,
    /// The kind that each input stream takes, in the order of their places.
    pub kinds: Vec<Kind>,
    /// The user-supplied side packets.
    pub sides: Places,
}

// Written out, so that a proof about code that drops a graph needn't open it.
impl Drop for Graph {
    fn drop(self) {
        let Graph {
            streams,
            kinds,
            sides,
        } = self;
        drop(streams);
        drop(kinds);
        drop(sides);
    }
}

/// Returns the inputs of a plan's graph.
pub fn graph_of(alloc: Global, plan: &Plan) -> Result<Graph, AllocError>
    ensures { IfOk result (λ graph. graph_view graph ≡ inputs_of plan.now) }
{
    let streams = Places::of(alloc, placed_streams(alloc, plan)?)?;
    let kinds = kinds_of(alloc, plan)?;
    let sides = Places::of(alloc, placed_sides(alloc, &plan.sides)?)?;
    Ok(Graph {
        streams,
        kinds,
        sides,
    })
}

// Returns the stream of the graph input of a number, or None if there is none.
fn stream_of(plan: &Plan, input: u32) -> Option<&PlanStream>
    ensures { option_copied result ≡ option_and_then (slice_get plan.now.streams) (slice_get plan.now.inputs input) }
{
    let number = *plan.inputs.get(input)?;
    plan.streams.get(number)
}

// Returns the names of the input streams, numbered from 0.
fn placed_streams(alloc: Global, plan: &Plan) -> Result<Vec<Placed>, AllocError>
    ensures { IfOk result (λ placed. placed.items ≡ numbered 0 (map (λ s. s.name) (input_streams plan.now))) }
{
    let mut placed = Vec::new(alloc);
    for input in 0..plan.inputs.len() {
        if let Some(stream) = stream_of(plan, input) {
            let name = stream.name.try_clone(alloc)?;
            let place = placed.len() as u32;
            placed.push(Placed { name, place })?;
        }
    }
    Ok(placed)
}

// Returns the kinds of the input streams, in order.
fn kinds_of(alloc: Global, plan: &Plan) -> Result<Vec<Kind>, AllocError>
    ensures { IfOk result (λ kinds. kinds.items ≡ map (λ s. s.kind) (input_streams plan.now)) }
{
    let mut kinds = Vec::new(alloc);
    for input in 0..plan.inputs.len() {
        if let Some(stream) = stream_of(plan, input) {
            kinds.push(stream.kind)?;
        }
    }
    Ok(kinds)
}

// Returns the names of the user-supplied side packets, with their places.
fn placed_sides(alloc: Global, sides: &SideList) -> Result<Vec<Placed>, AllocError>
    ensures { IfOk result (λ placed. placed.items ≡ given_sides sides.now) }
{
    let mut placed = Vec::new(alloc);
    for side in sides.as_slice() {
        if let Some(entry) = given_side(alloc, side)? {
            placed.push(entry)?;
        }
    }
    Ok(placed)
}

// Returns the name and the place of a user-supplied side packet. Returns None for a side packet whose value the plan has.
fn given_side(alloc: Global, side: &Side) -> Result<Option<Placed>, AllocError>
    ensures { IfOk result (λ placed. placed_side side.now.name side.now.value [] ≡ option_to_list placed) }
{
    match side.value {
        SideValue::Given(place) => {
            let name = side.name.try_clone(alloc)?;
            Ok(Some(Placed { name, place }))
        }
        SideValue::Fixed(_) => Ok(None),
    }
}
