//! How a node works, and how long it does before what it laid goes on.
ghost use Rattle.std.specs.Prelude.{◌≡◌, ◌<◌, ◌==◌, length, slice_get, Some, IfSome, IfNone, IfOk, OnOk, OnErr, false};
ghost use Rattle.mg_calc.specs.declared.plan_node.PlanNode.{PlanNode};
ghost use Rattle.mg_calc.specs.declared.event.Effect.TheVariants.{Idle};
ghost use Rattle.mg_sched.specs.StandsFor.{StandsForSome, IsRunning};
ghost use Rattle.mg_sched.specs.Acts.{Acts, IsEventOf};
ghost use Rattle.mg_sched.specs.Sweeps.{Becomes};
ghost use Rattle.mg_sched.specs.Heard.{Heard, HeardSome};
ghost use Rattle.mg_sched.specs.Code.Left.{Goes, HasWork, HasNoWork, HasShelf, HasNoShelf, WorksRest, RestsAt};
ghost use Rattle.mg_sched.specs.Code.Quiet.{IsAt, OnlyAt};

use super::Net;
use crate::Hears;
use mg_calc::{Event, NodeCalculator};
use mg_edge::Gate;
use std::alloc::AllocError;

impl<C: NodeCalculator> Net<C> {
    /// Lets a node work off what waits at it, so that all of it goes on at once. A source works once, since what it lays has to go on
    /// before it is known whether it is throttled. Returns whether something was done.
    pub(super) fn work_long<G: Gate, H: Hears>(
        &mut self,
        node: u32,
        gate: &G,
        hearer: &mut H,
    ) -> Result<bool, AllocError>
        requires running { IsRunning self.old }
        requires stands { StandsForSome C.laws self.old }
        requires there { node < length self.old.plan.nodes }
        ensures becomes { Becomes C.laws self.old self.new }
        ensures heard { OnOk result (Heard C.laws H.has_heard hearer.old hearer.new self.old self.new) }
        ensures heard_some { OnErr result (HeardSome C.laws H.has_heard hearer.old hearer.new self.old) }
        ensures goes { IfOk result (λ did. Goes did self.old self.new) }
        ensures only { OnOk result (OnlyAt node self.old self.new) }
    {
        if self.has_no_input(node) {
            let did = self.work(node, gate, hearer)?;
            return Ok(did);
        }
        let did = self.work_until_idle(node, gate, hearer)?;
        Ok(did)
    }

    // Whether a node has no input: it is a source then.
    pub(super) fn has_no_input(&self, node: u32) -> bool
        requires { node < length self.now.plan.nodes }
        ensures { (planned : PlanNode) → slice_get self.now.plan.nodes node ≡ Some planned → result ≡ (length planned.inputs == 0) }
    {
        self.plan.nodes.as_slice()[node as usize].inputs.is_empty()
    }

    // Does all works of a node, one after the other, and then raises its outputs once: no further work comes of that. Returns whether
    // something was done.
    fn work_until_idle<G: Gate, H: Hears>(
        &mut self,
        node: u32,
        gate: &G,
        hearer: &mut H,
    ) -> Result<bool, AllocError>
        requires running { IsRunning self.old }
        requires stands { StandsForSome C.laws self.old }
        requires there { node < length self.old.plan.nodes }
        ensures becomes { Becomes C.laws self.old self.new }
        ensures heard { OnOk result (Heard C.laws H.has_heard hearer.old hearer.new self.old self.new) }
        ensures heard_some { OnErr result (HeardSome C.laws H.has_heard hearer.old hearer.new self.old) }
        ensures goes { IfOk result (λ did. Goes did self.old self.new) }
        ensures only { OnOk result (OnlyAt node self.old self.new) }
    {
        let worked = self.do_works(node, gate, hearer)?;
        let raised = self.step(Event::Advance { node }, gate, hearer)?;
        Ok(worked | raised)
    }

    // Does a node's works, one after the other, as long as there is one. Returns whether there was one.
    fn do_works<G: Gate, H: Hears>(
        &mut self,
        node: u32,
        gate: &G,
        hearer: &mut H,
    ) -> Result<bool, AllocError>
        requires running { IsRunning self.old }
        requires stands { StandsForSome C.laws self.old }
        requires there { node < length self.old.plan.nodes }
        ensures becomes { Becomes C.laws self.old self.new }
        ensures heard { OnOk result (Heard C.laws H.has_heard hearer.old hearer.new self.old self.new) }
        ensures heard_some { OnErr result (HeardSome C.laws H.has_heard hearer.old hearer.new self.old) }
        ensures goes { IfOk result (λ did. Goes did self.old self.new) }
        ensures only { OnOk result (OnlyAt node self.old self.new) }
    {
        let mut did = false;
        'works: while self.work_on(node, gate, hearer)? {
            did = true;
        }
        Ok(did)
    }

    // Claims a node's next work, and performs and commits what is claimed. If nothing of that was done, raises the node's outputs. Returns
    // whether something was done.
    pub(super) fn work<G: Gate, H: Hears>(
        &mut self,
        node: u32,
        gate: &G,
        hearer: &mut H,
    ) -> Result<bool, AllocError>
        requires running { IsRunning self.old }
        requires stands { StandsForSome C.laws self.old }
        requires there { node < length self.old.plan.nodes }
        ensures becomes { Becomes C.laws self.old self.new }
        ensures heard { OnOk result (Heard C.laws H.has_heard hearer.old hearer.new self.old self.new) }
        ensures heard_some { OnErr result (HeardSome C.laws H.has_heard hearer.old hearer.new self.old) }
        ensures goes { IfOk result (λ did. Goes did self.old self.new) }
        ensures only { OnOk result (OnlyAt node self.old self.new) }
        ensures rest { IfOk result (λ did. did ≡ false → RestsAt C.laws self.new node) }
    {
        let worked = self.work_on(node, gate, hearer)?;
        if worked {
            return Ok(true);
        }
        let raised = self.step(Event::Advance { node }, gate, hearer)?;
        Ok(raised)
    }

    // Does a node's next work at once. If there is no next work, performs and commits what is claimed. Returns whether something was done.
    fn work_on<G: Gate, H: Hears>(
        &mut self,
        node: u32,
        gate: &G,
        hearer: &mut H,
    ) -> Result<bool, AllocError>
        requires running { IsRunning self.old }
        requires stands { StandsForSome C.laws self.old }
        requires there { node < length self.old.plan.nodes }
        ensures becomes { Becomes C.laws self.old self.new }
        ensures heard { OnOk result (Heard C.laws H.has_heard hearer.old hearer.new self.old self.new) }
        ensures heard_some { OnErr result (HeardSome C.laws H.has_heard hearer.old hearer.new self.old) }
        ensures goes { IfOk result (λ did. Goes did self.old self.new) }
        ensures only { OnOk result (OnlyAt node self.old self.new) }
        ensures rest { IfOk result (λ did. did ≡ false → WorksRest C.laws self.new node) }
    {
        let worked = self.work_at_once(node, gate, hearer)?;
        if worked {
            return Ok(true);
        }
        let finished = self.finish_works(node, gate, hearer)?;
        Ok(finished)
    }

    // Performs a node's works that are claimed, and then commits those that are performed. Returns whether there was one.
    fn finish_works<G: Gate, H: Hears>(
        &mut self,
        node: u32,
        gate: &G,
        hearer: &mut H,
    ) -> Result<bool, AllocError>
        requires running { IsRunning self.old }
        requires stands { StandsForSome C.laws self.old }
        requires there { node < length self.old.plan.nodes }
        ensures becomes { Becomes C.laws self.old self.new }
        ensures heard { OnOk result (Heard C.laws H.has_heard hearer.old hearer.new self.old self.new) }
        ensures heard_some { OnErr result (HeardSome C.laws H.has_heard hearer.old hearer.new self.old) }
        ensures goes { IfOk result (λ did. Goes did self.old self.new) }
        ensures only { OnOk result (OnlyAt node self.old self.new) }
        ensures performed { OnOk result (HasNoWork self.new node) }
        ensures committed { OnOk result (HasNoShelf self.new node) }
    {
        let mut did = false;
        'works: while let Some(event) = self.next_due(node) {
            let _ = self.step(event, gate, hearer)?;
            did = true;
        }
        Ok(did)
    }

    // Returns the event that performs a node's first claimed work. If there is none, returns the event that commits the node's first
    // performed work.
    #[tactic(auto, using(crate::proofs::Sweeping::due_shelves))]
    fn next_due(&self, node: u32) -> Option<Event>
        requires there { node < length self.now.plan.nodes }
        requires running { IsRunning self.now }
        requires stands { StandsForSome C.laws self.now }
        ensures event { IfSome result (λ event. IsEventOf self.now event) }
        ensures at { IfSome result (λ event. IsAt self.now.plan event node) }
        ensures due { IfSome result (λ event. ¬ Acts C.laws event Idle self.now self.now) }
        ensures works { IfNone result (HasNoWork self.now node) }
        ensures shelf { IfNone result (HasNoShelf self.now node) }
    {
        if let Some(number) = self.first_claimed(node) {
            return Some(Event::Perform { node, number });
        }
        let number = self.first_performed(node)?;
        Some(Event::Commit { node, number })
    }

    // Returns the number of a node's first work that is claimed and not performed.
    pub(super) fn first_claimed(&self, node: u32) -> Option<u64>
        requires there { node < length self.now.plan.nodes }
        requires stands { StandsForSome C.laws self.now }
        ensures some { IfSome result (λ number. HasWork self.now node number) }
        ensures none { IfNone result (HasNoWork self.now node) }
    {
        self.work_queues[node as usize].first()
    }

    // Returns the number of a node's first work that is performed and not committed.
    pub(super) fn first_performed(&self, node: u32) -> Option<u64>
        requires there { node < length self.now.plan.nodes }
        requires running { IsRunning self.now }
        requires stands { StandsForSome C.laws self.now }
        ensures some { IfSome result (λ number. HasShelf self.now node number) }
        ensures none { IfNone result (HasNoShelf self.now node) }
    {
        self.engines[node as usize].shelved()
    }
}
