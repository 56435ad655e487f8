//! How packets and bounds go from engines to intakes, and outputs are raised.
ghost use Rattle.std.specs.Prelude.{◌≡◌, ◌<◌, length, slice_get, Some, true, false, if◌then◌else◌};
ghost use Rattle.mg_calc.specs.Reaching.{producer_of};
ghost use Rattle.mg_calc.specs.declared.event.Effect as Effect;
ghost use Rattle.mg_sched.specs.Places.{source_of};
ghost use Rattle.mg_sched.specs.StandsFor.{StandsForSome, IsRunning};
ghost use Rattle.mg_sched.specs.Acts.{effect_of, IsHeld, Brings, DeliversAlong, NodeAdvances, LimitsRelax};

use super::Net;
use crate::sources::{producer_of, source_of};
use mg_calc::{Edge, Effect, NodeCalculator, Producer};
use mg_node::Delivered;

// Returns the effect of a delivery.
fn effect_of(delivered: Delivered) -> Effect
    ensures { result ≡ effect_of delivered }
{
    match delivered {
        Delivered::Moved {
            packets: 0,
            raised: false,
        } => Effect::Idle,
        Delivered::Moved { .. } => Effect::Did,
        Delivered::OutOfMemory { .. } => Effect::OutOfMemory,
    }
}

// Returns the effect of a step that has memory, by whether it did something.
fn done_if(done: bool) -> Effect
    ensures { result ≡ (if done then Effect.Did else Effect.Idle) }
{
    if done { Effect::Did } else { Effect::Idle }
}

impl<C: NodeCalculator> Net<C> {
    /// Brings along an edge what its port hasn't got, unless it comes from a graph input that is throttled.
    pub(super) fn carry(&mut self, number: u32) -> Effect
        requires there { number < length self.old.plan.edges }
        requires stands { StandsForSome C.laws self.old }
        requires running { IsRunning self.old }
        ensures { DeliversAlong number result self.old self.new }
    {
        let edge = self.plan.edges.as_slice()[number as usize];
        if self.is_held(edge) {
            return Effect::Idle;
        }
        self.bring(number, edge)
    }

    // Whether an edge leads from a graph input that is throttled.
    pub(super) fn is_held(&self, edge: Edge) -> bool
        requires stream { edge.stream < length self.now.plan.streams }
        requires stands { StandsForSome C.laws self.now }
        ensures held { result ≡ true → IsHeld self.now edge }
        ensures not_held { result ≡ false → ¬ IsHeld self.now edge }
    {
        match self.producer_of(edge) {
            Producer::Input(input) => !self.limits.may_feed(input),
            Producer::Node { .. } => false,
        }
    }

    // Returns who writes the stream of an edge.
    fn producer_of(&self, edge: Edge) -> Producer
        requires { edge.stream < length self.now.plan.streams }
        ensures { producer_of self.now.plan edge.stream ≡ Some result }
    {
        producer_of(&self.plan, edge)
    }

    // Returns the place of the engine that writes the stream of an edge.
    fn source_of(&self, edge: Edge) -> usize
        requires { edge.stream < length self.now.plan.streams }
        ensures { source_of self.now.plan edge ≡ Some result }
    {
        source_of(&self.plan, edge)
    }

    // Brings along an edge what its port hasn't got, and tells the limits how many packets wait there.
    fn bring(&mut self, number: u32, edge: Edge) -> Effect
        requires there { slice_get self.old.plan.edges number ≡ Some edge }
        requires stands { StandsForSome C.laws self.old }
        requires running { IsRunning self.old }
        ensures { Brings number edge result self.old self.new }
    {
        let place = self.source_of(edge);
        self.known = false;
        let engine = &self.engines[place];
        let intake = &mut self.intakes[edge.node as usize];
        let delivered = engine.deliver(edge, intake, u32::MAX);
        self.limits.note(number, intake.waiting(edge.port));
        effect_of(delivered)
    }

    /// Raises a node's outputs as far as what waits at it tells.
    pub(super) fn raise(&mut self, node: u32) -> Effect
        requires there { node < length self.old.plan.nodes }
        requires stands { StandsForSome C.laws self.old }
        requires running { IsRunning self.old }
        ensures { NodeAdvances node result self.old self.new }
    {
        self.known = false;
        let place = node as usize;
        let moved = self.engines[place].advance(&self.intakes[place]);
        done_if(moved)
    }

    /// Relaxes the limits of full queues, if there is one.
    pub(super) fn relax(&mut self) -> Effect
        ensures { LimitsRelax result self.old self.new }
    {
        done_if(self.limits.relax())
    }
}
