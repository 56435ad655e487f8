ghost use Rattle.std.specs.Prelude.{◌≡◌, ◌<◌, ◌≤◌, length, IfSome};
ghost use Rattle.mg_calc.specs.Plan.{IsValid, feeders};

use mg_calc::Plan;
use mg_throttle::Limits;
use std::alloc::{AllocError, Global};

/// The limits of queues, for workers. A lock guards them, so contracts know only how many there are. A queue that isn't there
/// is never full, and a feeder that isn't there is never throttled.
#[derive(Drop)]
pub(crate) struct Gauge {
    limits: Limits,
    queues: u32,
    feeders: usize,
    nodes: u32,
    ghost sized: { queues ≡ length limits.queues },
    ghost fed: { feeders ≤ limits.feeders },
    ghost reached: { nodes ≡ length limits.reached },
}

impl Gauge {
    /// Returns the limits of a plan, whose queues are empty. `count` is how many feeders the plan has.
    pub(crate) fn new(alloc: Global, plan: &Plan, count: usize) -> Result<Gauge, AllocError>
        requires valid { IsValid plan.now }
        requires feeders { count ≡ length (feeders plan.now) }
    {
        let limits = Limits::new(alloc, plan, plan.limit)?;
        let gauge = Gauge {
            limits,
            queues: plan.edges.len(),
            feeders: count,
            nodes: plan.nodes.len(),
        };
        Ok(gauge)
    }

    /// Whether a feeder isn't throttled.
    pub(crate) fn may_feed(&self, feeder: u32) -> bool {
        if feeder as usize >= self.feeders {
            return true;
        }
        self.limits.may_feed(feeder)
    }

    /// Returns the first feeder from number `from` on, and below `end`, that reaches a node and isn't throttled.
    pub(crate) fn next_feeder(&self, node: u32, from: usize, end: usize) -> Option<usize>
        ensures { IfSome result (λ feeder. (from ≤ feeder) × (feeder < end)) }
    {
        if node >= self.nodes {
            return None;
        }
        let feeder = self.limits.next_feeder(node, from)?;
        if feeder < end { Some(feeder) } else { None }
    }

    /// Notes how many packets wait in the queue of an edge, and returns whether the queue is full.
    pub(crate) fn note(&mut self, edge: u32, packets: u64) -> bool {
        if edge >= self.queues || packets == u64::MAX {
            return false;
        }
        self.limits.note(edge, packets);
        match self.limits.limit(edge) {
            Some(limit) => limit <= packets,
            None => false,
        }
    }

    /// Relaxes the limits of full queues, and returns whether some queue was full.
    pub(crate) fn relax(&mut self) -> bool {
        self.limits.relax()
    }
}
