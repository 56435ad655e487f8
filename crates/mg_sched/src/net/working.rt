//! How works are performed and committed.
ghost use Rattle.std.specs.Prelude.{◌≡◌, ◌<◌, length, slice_get, Some};
ghost use Rattle.mg_node.specs.Views.{EngineView};
ghost use Rattle.mg_sched.specs.StandsFor.{StandsForSome, IsRunning};
ghost use Rattle.mg_sched.specs.Places.{with_limits};
ghost use Rattle.mg_sched.specs.Acts.{NodePerforms, NodeCommits, stopped_by};

use super::Net;
use mg_calc::{Effect, NodeCalculator};
use mg_edge::Gate;
use mg_node::{Outcome, perform};

impl<C: NodeCalculator> Net<C> {
    /// Performs a node's work of this number, if it lies in the node's work queue. The work stands in the node's window then, as performed
    /// and not committed.
    pub(super) fn perform<G: Gate>(&mut self, node: u32, number: u64, gate: &G) -> Effect
        requires there { node < length self.old.plan.nodes }
        requires stands { StandsForSome C.laws self.old }
        requires running { IsRunning self.old }
        ensures { NodePerforms C.laws node number result self.old self.new }
    {
        self.known = false;
        let place = node as usize;
        let Some((lay, work)) = self.work_queues[place].take(number) else {
            return Effect::Idle;
        };
        match perform(self.alloc, work, gate) {
            Ok(performed) => {
                self.engines[place].shelve(Outcome::ran(performed));
                Effect::Did
            }
            Err(work) => {
                self.work_queues[place].put_back(lay, work);
                Effect::OutOfMemory
            }
        }
    }

    /// Commits a node's work of this number, if it stands in the node's window as performed and not committed.
    pub(super) fn commit(&mut self, node: u32, number: u64) -> Effect
        requires there { node < length self.old.plan.nodes }
        requires stands { StandsForSome C.laws self.old }
        requires running { IsRunning self.old }
        ensures { NodeCommits node number result self.old self.new }
    {
        self.known = false;
        let engine = &mut self.engines[node as usize];
        let Some(performed) = engine.unshelve(number) else {
            return Effect::Idle;
        };
        match engine.commit(Outcome::ran(performed)) {
            Ok(_) => {
                self.stop_ended(node);
                Effect::Did
            }
            Err(outcome) => {
                engine.shelve(outcome);
                Effect::OutOfMemory
            }
        }
    }

    // Tells the limits that the queues of a node no longer count, if it has ended.
    #[inline(always)]
    pub(super) fn stop_ended(&mut self, node: u32)
        requires engine { node < length self.old.engines }
        requires reached { node < length self.old.limits.reached }
        ensures { (engine : EngineView) → slice_get self.old.engines node ≡ Some engine → self.new ≡ with_limits self.old (stopped_by node engine self.old.limits) }
    {
        if self.engines[node as usize].has_ended() {
            self.limits.stop(node);
        }
    }
}
