ghost use Rattle.std.specs.Prelude.{◌≡◌, ◌+◌, ◌<◌, All, IfOk, IfSome, Some, length, vec_len};
ghost use Rattle.mg_calc.specs.Plan.{IsValid, sources, feeders};
ghost use Rattle.mg_calc.specs.Reaching.{producer_of};
ghost use Rattle.mg_throttle.specs.Code.Reach.{sources_among};
ghost use Rattle.mg_sched.specs.Places.{source_of};

use crate::kinds::{NodeKind, kinds_of};
use crate::leads::Leads;
use mg_calc::{Edge, Plan, PlanNode, Producer};
use std::alloc::{AllocError, Global};

/// What workers look up of a plan.
#[derive(Drop)]
pub(crate) struct Chart {
    // How the works of each node are done.
    kinds: Vec<NodeKind>,
    /// The edges by the places from which they lead: places are the nodes, and then the graph inputs.
    pub from: Leads,
    /// The edges by their consumers: these are the nodes, and then the collector.
    pub into: Leads,
    // The place from which each edge leads.
    starts: Vec<u32>,
    // The consumer of each edge: a node, or for the collector the number after those of all nodes.
    consumers: Vec<u32>,
    edge_count: u32,
    // The nodes without inputs, in order; and for each place of `from` the number of the feeder there, if one is.
    sources: Vec<u32>,
    feeders: Vec<Option<u32>>,
    /// How many feeders there are.
    pub feeder_count: usize,
    ghost counted: { vec_len consumers ≡ from.edges },
}

// Returns what writes the stream of an edge: a node or a graph input.
fn producer_of(plan: &Plan, edge: Edge) -> Producer
    requires { edge.stream < length plan.now.streams }
    ensures { producer_of plan.now edge.stream ≡ Some result }
{
    plan.streams.as_slice()[edge.stream as usize].producer
}

// Returns the place from which an edge leads: the number of a node, or the place of a graph input after all nodes. It is `None`
// past 32 bits.
fn source_of(plan: &Plan, edge: Edge) -> Option<u32>
    requires { edge.stream < length plan.now.streams }
    ensures { IfSome result (λ place. source_of plan.now edge ≡ Some place) }
{
    match producer_of(plan, edge) {
        Producer::Input(input) => plan.nodes.len().checked_add(input),
        Producer::Node { node, .. } => Some(node),
    }
}

// Returns the place from which the edge of a number leads, or `None` past 32 bits.
fn place_of(plan: &Plan, number: u32) -> Option<u32>
    requires valid { IsValid plan.now }
    requires there { number < length plan.now.edges }
    ensures { IfSome result (λ place. place < length plan.now.nodes + length plan.now.inputs) }
{
    source_of(plan, plan.edges.as_slice()[number as usize])
}

// Returns the places from which the edges lead. A place past 32 bits counts as out of memory.
fn starts_of(alloc: Global, plan: &Plan) -> Result<Vec<u32>, AllocError>
    requires { IsValid plan.now }
    ensures each { IfOk result (λ v. length v.items ≡ length plan.now.edges) }
    ensures below { IfOk result (λ v. All (λ place. place < length plan.now.nodes + length plan.now.inputs) v.items) }
{
    let mut starts = Vec::new(alloc);
    for number in 0..plan.edges.len() {
        match place_of(plan, number) {
            Some(place) => starts.push(place)?,
            None => return Err(AllocError),
        }
    }
    Ok(starts)
}

// Returns the consumer of the edge of a number: a node, or for the collector the number after those of all nodes.
fn consumer_of(plan: &Plan, number: u32) -> u32
    requires valid { IsValid plan.now }
    requires there { number < length plan.now.edges }
    ensures { result < length plan.now.nodes + 1 }
{
    plan.edges.as_slice()[number as usize].node
}

// Returns the consumer of each edge.
fn consumers_of(alloc: Global, plan: &Plan) -> Result<Vec<u32>, AllocError>
    requires { IsValid plan.now }
    ensures each { IfOk result (λ v. vec_len v ≡ length plan.now.edges) }
    ensures items { IfOk result (λ v. length v.items ≡ length plan.now.edges) }
    ensures below { IfOk result (λ v. All (λ node. node < length plan.now.nodes + 1) v.items) }
{
    let mut consumers = Vec::new(alloc);
    for number in 0..plan.edges.len() {
        consumers.push(consumer_of(plan, number))?;
    }
    Ok(consumers)
}

// The consumer of each edge, and the edges by their consumers.
#[derive(Drop)]
struct Entries {
    consumers: Vec<u32>,
    into: Leads,
}

// Returns where the edges of a plan lead.
fn entries_of(alloc: Global, plan: &Plan) -> Result<Entries, AllocError>
    requires { IsValid plan.now }
    ensures each { IfOk result (λ e. vec_len e.consumers ≡ length plan.now.edges) }
    ensures places { IfOk result (λ e. e.into.places ≡ length plan.now.nodes + 1) }
    ensures edges { IfOk result (λ e. e.into.edges ≡ length plan.now.edges) }
{
    let consumers = consumers_of(alloc, plan)?;
    let places = plan.nodes.len() as usize + 1;
    let into = Leads::new(alloc, places, consumers.as_slice())?;
    Ok(Entries { consumers, into })
}

// Returns the numbers of the nodes without inputs, in order.
fn sources_among(alloc: Global, nodes: &[PlanNode], _count: u32) -> Result<Vec<u32>, AllocError>
    requires { length nodes.now ≡ _count }
    ensures { IfOk result (λ v. v.items ≡ sources_among nodes.now) }
{
    let mut found = Vec::new(alloc);
    for (number, node) in nodes.iter().enumerate() {
        if node.inputs.is_empty() {
            found.push(number as u32)?;
        }
    }
    Ok(found)
}

// Returns for each place, of nodes and then of graph inputs, the number of the feeder there, if one is. Graph inputs have lower numbers as
// feeders than nodes without inputs.
fn feeders_of(alloc: Global, plan: &Plan) -> Result<Vec<Option<u32>>, AllocError> {
    let mut feeders = Vec::new(alloc);
    let mut next = plan.inputs.len();
    for node in plan.nodes.as_slice() {
        if !node.inputs.is_empty() {
            feeders.push(None)?;
            continue;
        }
        feeders.push(Some(next))?;
        next = next.checked_add(1).ok_or(AllocError)?;
    }
    for input in 0..plan.inputs.len() {
        feeders.push(Some(input))?;
    }
    Ok(feeders)
}

// The place from which each edge leads, and the edges by these places.
#[derive(Drop)]
struct Exits {
    starts: Vec<u32>,
    from: Leads,
}

// Returns from where the edges of a plan lead.
fn exits_of(alloc: Global, plan: &Plan) -> Result<Exits, AllocError>
    requires { IsValid plan.now }
    ensures places { IfOk result (λ e. e.from.places ≡ length plan.now.nodes + length plan.now.inputs) }
    ensures edges { IfOk result (λ e. e.from.edges ≡ length plan.now.edges) }
{
    let starts = starts_of(alloc, plan)?;
    let places = plan.nodes.len() as usize + plan.inputs.len() as usize;
    let from = Leads::new(alloc, places, starts.as_slice())?;
    Ok(Exits { starts, from })
}

// The nodes without inputs, and for each place the number of the feeder there.
#[derive(Drop)]
struct Sources {
    sources: Vec<u32>,
    feeders: Vec<Option<u32>>,
}

// Returns what feeds the graph of a plan: its nodes without inputs, and the numbers of all feeders.
fn sources_of(alloc: Global, plan: &Plan) -> Result<Sources, AllocError>
    ensures { IfOk result (λ s. s.sources.items ≡ sources plan.now) }
{
    let sources = sources_among(alloc, plan.nodes.as_slice(), plan.nodes.len())?;
    let feeders = feeders_of(alloc, plan)?;
    Ok(Sources { sources, feeders })
}

// Returns how many feeders a plan has: its graph inputs, and its nodes without inputs, which are `among`.
fn feeders_in(plan: &Plan, among: &[u32]) -> usize
    requires { among.now ≡ sources plan.now }
    ensures { result ≡ length (feeders plan.now) }
{
    plan.inputs.len() as usize + among.len()
}

impl Chart {
    /// Returns the chart of a plan.
    pub(crate) fn new(alloc: Global, plan: &Plan) -> Result<Chart, AllocError>
        requires { IsValid plan.now }
        ensures places { IfOk result (λ c. c.from.places ≡ length plan.now.nodes + length plan.now.inputs) }
        ensures consumers { IfOk result (λ c. c.into.places ≡ length plan.now.nodes + 1) }
        ensures edges { IfOk result (λ c. (c.from.edges ≡ length plan.now.edges) × (c.into.edges ≡ length plan.now.edges)) }
        ensures sources { IfOk result (λ c. c.sources.items ≡ sources plan.now) }
        ensures feeders { IfOk result (λ c. c.feeder_count ≡ length (feeders plan.now)) }
    {
        let Exits { starts, from } = exits_of(alloc, plan)?;
        let Entries { consumers, into } = entries_of(alloc, plan)?;
        let Sources { sources, feeders } = sources_of(alloc, plan)?;
        let feeder_count = feeders_in(plan, sources.as_slice());
        let kinds = kinds_of(alloc, plan, starts.as_slice(), consumers.as_slice())?;
        Ok(Chart {
            kinds,
            from,
            into,
            starts,
            consumers,
            edge_count: plan.edges.len(),
            sources,
            feeders,
            feeder_count,
        })
    }

    /// Returns the nodes without inputs, in order.
    pub(crate) fn sources(&self) -> &[u32]
        ensures { result.now ≡ self.now.sources.items }
    {
        self.sources.as_slice()
    }

    /// Returns how many feeders are graph inputs. They have lower numbers as feeders than the nodes without inputs.
    pub(crate) fn input_count(&self) -> usize {
        self.feeder_count.saturating_sub(self.sources.len())
    }

    /// Returns the number of the feeder at a place of `from`, if one is there.
    pub(crate) fn feeder(&self, place: usize) -> Option<u32> {
        match self.feeders.get(place) {
            Some(feeder) => *feeder,
            None => None,
        }
    }

    /// Returns how the works of a node are done.
    pub(crate) fn kind(&self, node: u32) -> NodeKind {
        match self.kinds.get(node as usize) {
            Some(kind) => *kind,
            None => NodeKind::Together { most: 1 },
        }
    }

    /// Whether several works of a node may run at once.
    pub(crate) fn flies(&self, node: u32) -> bool {
        matches!(self.kind(node), NodeKind::Flies)
    }

    /// Returns how many edges there are.
    pub(crate) fn edges(&self) -> u32 {
        self.edge_count
    }

    /// Returns the place of an edge or a node that waits: the place from which the edge leads, or the node's own.
    pub(crate) fn place_of(&self, number: u32) -> u32 {
        match self.starts.get(number as usize) {
            Some(place) => *place,
            None => number.wrapping_sub(self.edge_count),
        }
    }

    /// Returns the node into which an edge leads. If the edge leads into the collector, returns the number after those of all
    /// nodes.
    pub(crate) fn consumer(&self, edge: u32) -> u32
        requires { edge < self.now.from.edges }
    {
        self.consumers[edge as usize]
    }
}
