ghost use Rattle.std.specs.Prelude.{◌≡◌, ℕ, ◌+◌, ◌^◌, ◌<◌, ◌≤◌, ◌↔◌, false, All, Some, length, map, replicate, count_by, slice_get, IfOk, IfSome, IfNone, option_map};
ghost use Rattle.std.specs.List.{list_any};
ghost use Rattle.std.specs.List.Sorted.{IsPartitionPoint};
ghost use Rattle.mg_calc.specs.declared.plan.Plan.{Plan as PlanRecord};
ghost use Rattle.mg_calc.specs.declared.edge.Edge.{Edge as EdgeRecord};
ghost use Rattle.mg_calc.specs.Plan.{IsValid, Feeder, feeders, HasEachOnce};
ghost use Rattle.mg_throttle.specs.Throttle.{limit_of, new_queue, noted, is_full, relaxed, stopped, AreLimitsOf, IsThrottled, FeederReaches};
ghost use Rattle.mg_throttle.specs.Code.Kept.{AreByNode, AreListed, is_full_at};

use crate::queue::Queue;
use crate::reach::{rows_of, sources};
use crate::row::Row;
use mg_calc::{Edge, Plan};
use mg_ready::Ready;
use mg_value::{BlockList, NumberList};
use std::alloc::{AllocError, Global};
use std::marker::Model;

// The limit that 0 stands for.
const USUAL: u64 = 100;

/// The limits of a plan's queues, and which of its feeders are throttled (MediaPipe, Real-time Streams). Only `new`
/// takes memory.
#[derive(Drop)]
pub struct Limits {
    // The queues of the edges, in the edges' order.
    queues: Vec<Queue>,
    // For each node, which feeders reach it.
    rows: Vec<Row>,
    // For each feeder, how many full queues it reaches.
    counts: Vec<usize>,
    // The queues that became full since limits were relaxed. Some of them may be full no more.
    listed: Ready,
}

impl Model for Limits {
    ghost use Rattle.std.specs.Prelude.{vec_len};
    ghost use Rattle.mg_throttle.specs.Throttle.{QueueLimits};
    ghost use Rattle.mg_throttle.specs.Code.Kept.{IsKept, AreListed};

    ghost Value = { QueueLimits };

    ghost view = { λ l. record { queues = l.queues.items; reached = l.rows.items; feeders = vec_len l.counts } };

    ghost invariant = { λ l. IsKept l.queues.items l.rows.items l.counts.items × AreListed l.queues.items l.listed };
}

// The limit that a number stands for: 0 is the usual one, and a negative number none.
fn limit_of(limit: i32) -> Option<u64>
    ensures { result ≡ limit_of limit }
{
    if limit < 0 {
        None
    } else if limit == 0 {
        Some(USUAL)
    } else {
        Some(limit as u64)
    }
}

// The queues of some edges, all empty.
fn queues_of(
    alloc: Global,
    edges: &[Edge],
    nodes: u32,
    limit: Option<u64>,
) -> Result<Vec<Queue>, AllocError>
    ensures { IfOk result (λ v. v.items ≡ map (new_queue nodes limit) edges.now) }
{
    let mut queues = Vec::new(alloc);
    for edge in edges {
        queues.push(Queue {
            node: edge.node,
            waiting: 0,
            limit,
            counts: edge.node < nodes,
        })?;
    }
    Ok(queues)
}

// Returns `len` zeros.
fn zeros(alloc: Global, len: usize) -> Result<Vec<usize>, AllocError>
    ensures { IfOk result (λ v. v.items ≡ replicate len 0) }
{
    vec![in alloc; 0; len]
}

// Returns the place of the first queue whose consumer isn't below `node`.
fn first_queue(queues: &[Queue], node: u32) -> usize
    requires { AreByNode queues.now }
    ensures { IsPartitionPoint (λ q. q.node < node) (λ q. node ≤ q.node) queues.now result }
{
    queues.partition_point(|queue| queue.node < node)
}

// Stops the queues of a node, and returns how many of them were full.
fn stop_queues(queues: &mut [Queue], node: u32) -> usize
    requires by_node { AreByNode queues.old }
    ensures queues { queues.new ≡ map (stopped node) queues.old }
    ensures full { result ≡ count_by (is_full_at node) queues.old }
{
    let mut full = 0;
    for k in first_queue(queues, node)..queues.len() {
        let queue = queues[k];
        if queue.node != node {
            break;
        }
        if queue.is_full() {
            full += 1;
        }
        queues[k] = Queue {
            counts: false,
            ..queue
        };
    }
    full
}

// Returns the numbers below a count, in order.
fn numbers_below(alloc: Global, count: u32) -> Result<NumberList, AllocError>
    ensures { IfOk result (λ l. HasEachOnce count l) }
{
    let mut numbers = Vec::new(alloc);
    for number in 0..count {
        numbers.push(number)?;
    }
    Ok(BlockList::from_vec(numbers)?)
}

// Relaxes the limits of the full queues, and returns whether there was one. All full queues are listed before, and no queue is
// listed afterwards.
fn relax_listed(queues: &mut [Queue], listed: &mut Ready) -> bool
    requires lengths { All (λ q. q.waiting + 1 < 2 ^ 64) queues.old }
    requires listed { AreListed queues.old listed.old }
    ensures relaxed { queues.new ≡ map relaxed queues.old }
    ensures any { result ≡ list_any is_full queues.old }
    ensures order { listed.new.order ≡ listed.old.order }
{
    let mut any = false;
    while let Some(number) = listed.take() {
        let queue = queues[number as usize];
        any |= queue.is_full();
        queues[number as usize] = queue.relaxed();
    }
    any
}

// Sets the counts to 0 if a queue was full. If none was, they are 0 as they stand.
fn clear(counts: &mut [usize], any: bool)
    requires zeros { any ≡ false → counts.old ≡ replicate (length counts.old) 0 }
    ensures zeros { counts.new ≡ replicate (length counts.old) 0 }
{
    if any {
        counts.fill(0);
    }
}

impl Limits {
    /// Returns the limits of a plan, whose queues are empty and all have this limit. A limit of 0 is 100, and a negative one is none.
    pub fn new(alloc: Global, plan: &Plan, limit: i32) -> Result<Limits, AllocError>
        requires { IsValid plan.now }
        ensures of { IfOk result (λ t. AreLimitsOf plan.now t) }
        ensures queues { IfOk result (λ t. t.queues ≡ map (new_queue (length plan.now.nodes) (limit_of limit)) plan.now.edges) }
    {
        let sources = sources(alloc, plan.nodes.as_slice())?;
        let counts = zeros(alloc, plan.inputs.len() as usize + sources.len())?;
        let rows = rows_of(alloc, plan, sources.as_slice())?;
        let limit = limit_of(limit);
        let queues = queues_of(alloc, plan.edges.as_slice(), plan.nodes.len(), limit)?;
        let numbers = numbers_below(alloc, plan.edges.len())?;
        let listed = Ready::new(alloc, &numbers)?;
        Ok(Limits {
            queues,
            rows,
            counts,
            listed,
        })
    }

    /// Notes how many packets wait in the queue of an edge. Looks at the feeders that reach its consumer only if the queue
    /// becomes full or stops being full.
    #[inline(always)]
    pub fn note(&mut self, edge: u32, packets: u64)
        requires edge { edge < length self.old.queues }
        requires packets { packets + 1 < 2 ^ 64 }
        ensures noted { self.new ≡ record self.old { queues = noted self.old.queues edge packets } }
        ensures of { (plan : PlanRecord) → AreLimitsOf plan self.old → AreLimitsOf plan self.new }

        // A feeder that isn't throttled any more reaches the edge's consumer.
        ensures let_go { (plan : PlanRecord) (f : Feeder) (e : EdgeRecord) → AreLimitsOf plan self.old → slice_get plan.edges edge ≡ Some e
            → IsThrottled plan self.old f → ¬ IsThrottled plan self.new f → FeederReaches plan f e.node }
    {
        let queue = self.queues[edge as usize];
        let noted = Queue {
            waiting: packets,
            ..queue
        };
        self.queues[edge as usize] = noted;
        let was = queue.is_full();
        let is = noted.is_full();
        if was != is {
            let row = &self.rows[queue.node as usize];
            row.change(&mut self.counts, usize::from(is), usize::from(was));
            self.listed.put(edge);
        }
    }

    /// Notes that a node has stopped: its queues no longer count.
    pub fn stop(&mut self, node: u32)
        requires { node < length self.old.reached }
        ensures stopped { self.new ≡ record self.old { queues = map (stopped node) self.old.queues } }
        ensures of { (plan : PlanRecord) → AreLimitsOf plan self.old → AreLimitsOf plan self.new }
    {
        let full = stop_queues(&mut self.queues, node);
        if full > 0 {
            self.rows[node as usize].change(&mut self.counts, 0, full);
        }
    }

    /// Whether a feeder isn't throttled.
    pub fn may_feed(&self, feeder: u32) -> bool
        requires { feeder < self.now.feeders }
        ensures { (plan : PlanRecord) (f : Feeder) → AreLimitsOf plan self.now → slice_get (feeders plan) feeder ≡ Some f
            → (result ≡ false) ↔ IsThrottled plan self.now f }
    {
        self.counts[feeder as usize] == 0
    }

    /// Returns the first feeder from number `from` on that reaches a node and isn't throttled. Behind a `note` by which a queue of the node
    /// stopped being full, these are the feeders that were throttled by that queue alone. It looks at a word for each 64 feeders, and at
    /// the feeders of those words in which some reach the node.
    pub fn next_feeder(&self, node: u32, from: usize) -> Option<usize>
        requires { node < length self.now.reached }
        ensures place { IfSome result (λ number. (from ≤ number) × (number < self.now.feeders)) }
        ensures found { IfSome result (λ number. (plan : PlanRecord) (f : Feeder) → AreLimitsOf plan self.now → slice_get (feeders plan) number ≡ Some f
            → FeederReaches plan f node × ¬ IsThrottled plan self.now f) }
        ensures first { IfSome result (λ number. (plan : PlanRecord) (before : ℕ) (f : Feeder) → AreLimitsOf plan self.now → slice_get (feeders plan) before ≡ Some f
            → from ≤ before → before < number → FeederReaches plan f node → IsThrottled plan self.now f) }
        ensures none { IfNone result ((plan : PlanRecord) (number : ℕ) (f : Feeder) → AreLimitsOf plan self.now → slice_get (feeders plan) number ≡ Some f
            → from ≤ number → FeederReaches plan f node → IsThrottled plan self.now f) }
    {
        self.rows[node as usize].uncounted(&self.counts, from)
    }

    /// Relaxes the limits: the limit of each full queue becomes one more than the packets that wait in it. Returns whether
    /// there was a full queue. Looks once at each queue that became full, or stopped being so, since limits were relaxed last.
    /// Looks at the feeders only if there was a full queue.
    pub fn relax(&mut self) -> bool
        ensures any { result ≡ list_any is_full self.old.queues }
        ensures relaxed { self.new ≡ record self.old { queues = map relaxed self.old.queues } }
        ensures none { result ≡ false → self.new ≡ self.old }
        ensures of { (plan : PlanRecord) → AreLimitsOf plan self.old → AreLimitsOf plan self.new }
    {
        let any = relax_listed(&mut self.queues, &mut self.listed);
        clear(&mut self.counts, any);
        any
    }

    /// Returns the limit of the queue of an edge, if it has one.
    pub fn limit(&self, edge: u32) -> Option<u64>
        requires { edge < length self.now.queues }
        ensures { option_map (λ q. q.limit) (slice_get self.now.queues edge) ≡ Some result }
    {
        self.queues[edge as usize].limit
    }
}
