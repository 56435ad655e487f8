//! The steps of a net.
ghost use Rattle.std.specs.Prelude.{◌≡◌};
ghost use Rattle.mg_calc.specs.declared.event.Effect.TheVariants as Effect;
ghost use Rattle.mg_node.specs.Job.{LoggedJob};
ghost use Rattle.mg_sched.specs.StandsFor.{StandsFor, StandsForSome, IsRunning};
ghost use Rattle.mg_sched.specs.Acts.{IsEventOf, Acts};

use super::Net;
use mg_calc::{Effect, Event, NodeCalculator};
use mg_edge::Gate;

impl<C: NodeCalculator> Net<C> {
    /// Makes a step. Each event changes the parts that it names, and costs what these cost. A delivery brings along an edge all that the
    /// port hasn't got, and the bound. An advance raises a node's outputs. A claim hands out the node's next work, which lies in the net
    /// then. A work is performed, and a performed work is committed. Limits are relaxed if a queue is full. Returns `Idle` if there is
    /// nothing to do, and for a delivery from a throttled graph input and a claim of a throttled source. Out of memory: a delivery keeps
    /// what it has moved, and nothing else has changed.
    pub fn act<G: Gate>(&mut self, event: Event, gate: &G) -> Effect
        requires event { IsEventOf self.old event }
        requires running { IsRunning self.old }
        requires stands { StandsForSome C.laws self.old }
        ensures acts { Acts C.laws event result self.old self.new }
        ensures running { IsRunning self.new }
        ensures idle { result ≡ Effect.Idle → self.new ≡ self.old }

        // The net still stands for each job for which it stood.
        ensures stands { (job : LoggedJob C.laws) → StandsFor job self.old → StandsFor job self.new }
    {
        self.make(event, gate)
    }

    // Makes a step, and returns its effect.
    fn make<G: Gate>(&mut self, event: Event, gate: &G) -> Effect
        requires event { IsEventOf self.old event }
        requires running { IsRunning self.old }
        requires stands { StandsForSome C.laws self.old }
        ensures { Acts C.laws event result self.old self.new }
    {
        match event {
            Event::Deliver { edge } => self.carry(edge),
            Event::Advance { node } => self.raise(node),
            Event::Claim { node } => self.claim(node),
            Event::Perform { node, number } => self.perform(node, number, gate),
            Event::Commit { node, number } => self.commit(node, number),
            Event::Relax => self.relax(),
        }
    }
}
