//! What a net is made of, before the user-supplied calculators are at their nodes.
ghost use Rattle.std.specs.Prelude.{◌≡◌, ◌+◌, ◌<◌, ◌≤◌, [], Some, IfOk, All, length, map, replicate, false, slice_get, vec_len, vec_capacity};
ghost use Rattle.mg_settled.specs.Prefix.{IsPrefix};
ghost use Rattle.mg_calc.specs.declared.plan_node.PlanNode.{PlanNode};
ghost use Rattle.mg_calc.specs.Plan.{IsValid};
ghost use Rattle.mg_node.specs.Fresh.{own_told, fresh_engine};
ghost use Rattle.mg_throttle.specs.Throttle.{AreLimitsOf, limit_of, new_queue};
ghost use Rattle.mg_sched.specs.Code.Made.{AtPlaces, IsEngineAt, IsIntakeAt, IsWorkQueueAt};
ghost use Rattle.mg_sched.specs.Code.Tables.{AreTables};

use crate::tables::{first_edges, none_kept, own_feeders, stream_numbers};
use crate::work_queue::WorkQueue;
use mg_calc::{GivenList, NodeCalculator, Plan, TryClone};
use mg_node::{Engine, Intake};
use mg_route::{Builtin, Holder};
use mg_settled::PrefixList;
use mg_throttle::Limits;
use std::alloc::{AllocError, Global};

/// The plan and the side packets that a net keeps, and places for the user-supplied calculators.
#[derive(Drop)]
pub(crate) struct Kept<C: NodeCalculator> {
    pub(crate) plan: Plan,
    pub(crate) given: GivenList,
    pub(crate) places: Vec<Option<C>>,
}

/// The engines, intakes and work queues of a net.
#[derive(Drop)]
pub(crate) struct Cells<C: NodeCalculator> {
    pub(crate) engines: Vec<Engine<C>>,
    pub(crate) intakes: Vec<Intake>,
    pub(crate) work_queues: Vec<WorkQueue<C>>,
}

/// The limits of a net's queues, and its tables.
#[derive(Drop)]
pub(crate) struct Rules {
    pub(crate) limits: Limits,
    pub(crate) first_edges: Vec<u32>,
    pub(crate) own_feeders: Vec<Option<u32>>,
    pub(crate) got: Vec<u64>,
    pub(crate) kept: Vec<bool>,
}

// Returns the engine of a node, with a calculator of the node's own kind.
fn engine_of<C: NodeCalculator>(
    alloc: Global,
    plan: &Plan,
    node: u32,
) -> Result<Engine<C>, AllocError>
    requires valid { IsValid plan.now }
    requires node { node < length plan.now.nodes }
    ensures { IfOk result (λ e. (planned : PlanNode) → slice_get plan.now.nodes node ≡ Some planned → e ≡ fresh_engine planned node (own_told planned)) }
{
    let planned = &plan.nodes.as_slice()[node as usize];
    let builtin = Builtin::new(alloc, &planned.law, &planned.shape)?;
    match Engine::new(alloc, plan, node, Holder::own(builtin)) {
        Ok(engine) => Ok(engine),
        Err(_) => Err(AllocError),
    }
}

// Returns the engines of the nodes.
fn node_engines<C: NodeCalculator>(
    alloc: Global,
    plan: &Plan,
    streams: &PrefixList,
) -> Result<Vec<Engine<C>>, AllocError>
    requires valid { IsValid plan.now }
    ensures count { IfOk result (λ v. length v.items ≡ length plan.now.nodes) }
    ensures engines { IfOk result (λ v. AtPlaces (IsEngineAt plan.now streams.now (λ _ node. own_told node)) v.items) }
{
    let room = plan.nodes.len() as usize + streams.len() as usize;
    let mut engines = Vec::with_capacity(alloc, room)?;
    for node in 0..plan.nodes.len() {
        engines.push(engine_of(alloc, plan, node)?)?;
    }
    Ok(engines)
}

/// Returns the engines of the nodes, each with a calculator of the node's own kind, and after them those of the graph inputs.
pub(crate) fn engines_of<C: NodeCalculator>(
    alloc: Global,
    plan: &Plan,
    streams: &PrefixList,
) -> Result<Vec<Engine<C>>, AllocError>
    requires valid { IsValid plan.now }
    requires inputs { length streams.now ≡ length plan.now.inputs }
    requires prefixes { All IsPrefix streams.now }
    ensures count { IfOk result (λ v. length v.items ≡ length plan.now.nodes + length plan.now.inputs) }
    ensures engines { IfOk result (λ v. AtPlaces (IsEngineAt plan.now streams.now (λ _ node. own_told node)) v.items) }
{
    let mut engines = node_engines(alloc, plan, streams)?;
    for input in 0..plan.inputs.len() {
        let prefix = &streams.as_slice()[input as usize];
        engines.push(Engine::of_input(alloc, plan, input, prefix)?)?;
    }
    Ok(engines)
}

/// Returns the intakes of the nodes, and after them the collector's.
pub(crate) fn intakes_of(alloc: Global, plan: &Plan) -> Result<Vec<Intake>, AllocError>
    requires valid { IsValid plan.now }
    ensures count { IfOk result (λ v. length v.items ≡ length plan.now.nodes + 1) }
    ensures intakes { IfOk result (λ v. AtPlaces (IsIntakeAt plan.now) v.items) }
{
    let mut intakes = Vec::with_capacity(alloc, plan.nodes.len() as usize + 1)?;
    for consumer in 0..plan.nodes.len() + 1 {
        intakes.push(Intake::new(alloc, plan, consumer)?)?;
    }
    Ok(intakes)
}

/// Returns the work queues of the nodes, in which nothing lies.
pub(crate) fn work_queues_of<C: NodeCalculator>(
    alloc: Global,
    plan: &Plan,
) -> Result<Vec<WorkQueue<C>>, AllocError>
    ensures count { IfOk result (λ v. length v.items ≡ length plan.now.nodes) }
    ensures work_queues { IfOk result (λ v. AtPlaces (IsWorkQueueAt plan.now) v.items) }
{
    let mut work_queues = Vec::with_capacity(alloc, plan.nodes.len() as usize)?;
    for node in 0..plan.nodes.len() {
        let planned = &plan.nodes.as_slice()[node as usize];
        work_queues.push(WorkQueue::new(alloc, planned.in_flight)?)?;
    }
    Ok(work_queues)
}

/// Returns copies of a plan and of side packets, and room for `count` calculators.
pub(crate) fn kept_of<C: NodeCalculator>(
    alloc: Global,
    plan: &Plan,
    sides: &GivenList,
    count: usize,
) -> Result<Kept<C>, AllocError>
    ensures plan { IfOk result (λ k. k.plan ≡ plan.now) }
    ensures given { IfOk result (λ k. k.given ≡ sides.now) }
    ensures none { IfOk result (λ k. k.places.items ≡ []) }
    ensures empty { IfOk result (λ k. vec_len k.places ≡ 0) }
    ensures room { IfOk result (λ k. count ≤ vec_capacity k.places) }
{
    let plan = plan.try_clone(alloc)?;
    let given = sides.try_clone(alloc)?;
    let places = Vec::with_capacity(alloc, count)?;
    Ok(Kept {
        plan,
        given,
        places,
    })
}

/// Returns the cells of the nodes, the engines of the graph inputs, and the collector's intake.
pub(crate) fn cells_of<C: NodeCalculator>(
    alloc: Global,
    plan: &Plan,
    streams: &PrefixList,
) -> Result<Cells<C>, AllocError>
    requires valid { IsValid plan.now }
    requires inputs { length streams.now ≡ length plan.now.inputs }
    requires prefixes { All IsPrefix streams.now }
    ensures engine_count { IfOk result (λ c. length c.engines.items ≡ length plan.now.nodes + length plan.now.inputs) }
    ensures engines { IfOk result (λ c. AtPlaces (IsEngineAt plan.now streams.now (λ _ node. own_told node)) c.engines.items) }
    ensures intake_count { IfOk result (λ c. length c.intakes.items ≡ length plan.now.nodes + 1) }
    ensures intakes { IfOk result (λ c. AtPlaces (IsIntakeAt plan.now) c.intakes.items) }
    ensures work_queue_count { IfOk result (λ c. length c.work_queues.items ≡ length plan.now.nodes) }
    ensures work_queues { IfOk result (λ c. AtPlaces (IsWorkQueueAt plan.now) c.work_queues.items) }
{
    let engines = engines_of(alloc, plan, streams)?;
    let intakes = intakes_of(alloc, plan)?;
    let work_queues = work_queues_of(alloc, plan)?;
    Ok(Cells {
        engines,
        intakes,
        work_queues,
    })
}

/// Returns the limits of a plan's queues, and its tables.
pub(crate) fn rules_of(alloc: Global, plan: &Plan) -> Result<Rules, AllocError>
    requires valid { IsValid plan.now }
    ensures of { IfOk result (λ r. AreLimitsOf plan.now r.limits) }
    ensures queues { IfOk result (λ r. r.limits.queues ≡ map (new_queue (length plan.now.nodes) (limit_of plan.now.limit)) plan.now.edges) }
    ensures tables { IfOk result (λ r. AreTables plan.now r.first_edges.items r.own_feeders.items) }
    ensures got { IfOk result (λ r. vec_len r.got ≡ length plan.now.streams) }
    ensures kept { IfOk result (λ r. r.kept.items ≡ replicate (length plan.now.streams) false) }
{
    let limits = Limits::new(alloc, plan, plan.limit)?;
    let first_edges = first_edges(alloc, plan)?;
    let own_feeders = own_feeders(alloc, plan)?;
    let got = stream_numbers(alloc, plan)?;
    let kept = none_kept(alloc, plan)?;
    Ok(Rules {
        limits,
        first_edges,
        own_feeders,
        got,
        kept,
    })
}
