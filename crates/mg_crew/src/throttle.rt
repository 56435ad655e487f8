ghost use Rattle.std.specs.Prelude.{◌<◌, ◌≤◌, IfSome};

use crate::gauge::Gauge;
use crate::marks::Marks;
use std::alloc::{AllocError, Global};
use std::sync::{Mutex, Wait};

/// What holds feeders back if queues are full. No contract rests on it.
#[derive(Drop)]
pub(crate) struct Throttle {
    gauge: Mutex<Gauge>,
    // A number that no queue's limit is below: a queue with fewer packets isn't full and needn't be noted.
    least: u64,
    // The edges whose queues were full when they were last noted.
    full: Marks,
}

impl Throttle {
    /// Returns a throttle for `edges` queues. None of them is full. No limit may be lower than `least`.
    pub(crate) fn new(
        alloc: Global,
        gauge: Gauge,
        least: u64,
        edges: u32,
    ) -> Result<Throttle, AllocError> {
        Ok(Throttle {
            gauge: Mutex::new(gauge),
            least,
            full: Marks::new(alloc, edges, false)?,
        })
    }

    /// Whether a feeder isn't throttled.
    pub(crate) fn may_feed<R: Wait>(&self, rt: &R, feeder: u32) -> bool {
        self.gauge.lock(rt).may_feed(feeder)
    }

    /// Returns the first feeder from number `from` on, and below `end`, that reaches a node and isn't throttled.
    pub(crate) fn next_feeder<R: Wait>(
        &self,
        rt: &R,
        node: u32,
        from: usize,
        end: usize,
    ) -> Option<usize>
        ensures { IfSome result (λ feeder. (from ≤ feeder) × (feeder < end)) }
    {
        self.gauge.lock(rt).next_feeder(node, from, end)
    }

    /// Whether the queue of an edge was full when it was last noted.
    pub(crate) fn is_full(&self, edge: u32) -> bool {
        self.full.is_set(edge)
    }

    /// Notes how many packets wait in the queue of an edge, and returns whether the queue was full and isn't any more.
    pub(crate) fn note<R: Wait>(&self, rt: &R, edge: u32, packets: u64) -> bool {
        if packets < self.least && !self.is_full(edge) {
            return false;
        }
        let mut gauge = self.gauge.lock(rt);
        if gauge.note(edge, packets) {
            self.full.set(edge);
            return false;
        }
        self.full.clear(edge)
    }

    /// Relaxes the limits of full queues, and returns whether some queue was full.
    pub(crate) fn relax<R: Wait>(&self, rt: &R) -> bool {
        self.gauge.lock(rt).relax()
    }
}
