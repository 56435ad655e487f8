//! How a node's next work is claimed, performed and committed at once, and lies in no work queue and in no window in between.
ghost use Rattle.std.specs.Prelude.{◌≡◌, ◌<◌, length, slice_get, Some, None, IfOk, OnOk, OnErr};
ghost use Rattle.mg_calc.specs.declared.event.Event.TheVariants.{Claim as ToClaim};
ghost use Rattle.mg_node.specs.Views.{WorkView};
ghost use Rattle.mg_node.specs.Running.{IsPerformed};
ghost use Rattle.mg_sched.specs.Views.{WorkQueueView};
ghost use Rattle.mg_sched.specs.StandsFor.{StandsForSome, IsRunning};
ghost use Rattle.mg_sched.specs.Acts.{IsHeldSource};
ghost use Rattle.mg_sched.specs.Sweeps.{Becomes};
ghost use Rattle.mg_sched.specs.Heard.{Heard, HeardSome};
ghost use Rattle.mg_sched.specs.Code.AtOnce.{ShowsAt, did_nothing, IsHandedOut, IsPerformedOut, with_work, ComesOn, Comes, steps_of, did_of, HearsMore};
ghost use Rattle.mg_sched.specs.Code.Left.{Steps};
ghost use Rattle.mg_sched.specs.Code.Quiet.{OnlyAt};

use super::Net;
use crate::Hears;
use crate::reached::Reached;
use mg_calc::{Event, NodeCalculator};
use mg_edge::Gate;
use mg_node::{AtOnce, Claimed, Outcome, Performed, Work, perform};
use std::alloc::AllocError;

// Tells a hearer the steps that were made for a node's next work.
fn hear<H: Hears>(hearer: &mut H, node: u32, reached: &Reached)
    ensures { HearsMore H.has_heard hearer.old hearer.new (steps_of node reached.now) }
{
    match reached {
        Reached::Nothing => {}
        Reached::NotClaimed => {}
        Reached::Answered => hearer.hear(Event::Claim { node }),
        Reached::Claimed => hearer.hear(Event::Claim { node }),
        Reached::Performed(number) => {
            hearer.hear(Event::Claim { node });
            let number = *number;
            hearer.hear(Event::Perform { node, number });
        }
        Reached::Committed(number) => {
            hearer.hear(Event::Claim { node });
            let number = *number;
            hearer.hear(Event::Perform { node, number });
            hearer.hear(Event::Commit { node, number });
        }
    }
}

// Returns whether something was done. It is an error if there was no memory for the next step.
fn did(reached: &Reached) -> Result<bool, AllocError>
    ensures some { IfOk result (λ did. did_of reached.now ≡ Some did) }
    ensures none { OnErr result (did_of reached.now ≡ None) }
{
    match reached {
        Reached::Nothing => Ok(false),
        Reached::NotClaimed => Err(AllocError),
        Reached::Answered => Ok(true),
        Reached::Claimed => Err(AllocError),
        Reached::Performed(_) => Err(AllocError),
        Reached::Committed(_) => Ok(true),
    }
}

// Whether no set was claimed to be shown.
fn did_nothing<C: NodeCalculator>(done: &AtOnce<C>) -> bool
    ensures { result ≡ did_nothing done.now }
{
    match done {
        AtOnce::Other => true,
        AtOnce::NotReady => true,
        AtOnce::Claimed(_) => false,
        AtOnce::Performed(_) => false,
        AtOnce::Committed(_) => false,
    }
}

impl<C: NodeCalculator> Net<C> {
    /// Claims a node's next work, and performs and commits it at once. Out of memory: leaves the claimed work in the node's work queue, or
    /// the performed work in the node's window. Returns whether something was done.
    pub(super) fn work_at_once<G: Gate, H: Hears>(
        &mut self,
        node: u32,
        gate: &G,
        hearer: &mut H,
    ) -> Result<bool, AllocError>
        requires running { IsRunning self.old }
        requires stands { StandsForSome C.laws self.old }
        requires there { node < length self.old.plan.nodes }
        ensures becomes { Becomes C.laws self.old self.new }
        ensures heard { OnOk result (Heard C.laws H.has_heard hearer.old hearer.new self.old self.new) }
        ensures heard_some { OnErr result (HeardSome C.laws H.has_heard hearer.old hearer.new self.old) }
        ensures steps { IfOk result (λ did. Steps C.laws did (ToClaim node) self.old self.new) }
        ensures only { OnOk result (OnlyAt node self.old self.new) }
    {
        let reached = self.turn(node, gate);
        hear(hearer, node, &reached);
        let did = did(&reached)?;
        Ok(did)
    }

    // Claims a node's next work, unless it is a source that is throttled, and performs and commits it.
    fn turn<G: Gate>(&mut self, node: u32, gate: &G) -> Reached
        requires running { IsRunning self.old }
        requires stands { StandsForSome C.laws self.old }
        requires there { node < length self.old.plan.nodes }
        ensures { Comes C.laws node result self.old self.new }
    {
        if self.is_held_source(node) {
            return Reached::Nothing;
        }
        match self.show(node, gate) {
            AtOnce::Other => self.turn_over(node, gate),
            AtOnce::NotReady => Reached::Nothing,
            AtOnce::Claimed(work) => {
                self.put_on_work_queue(node, work);
                Reached::Claimed
            }
            AtOnce::Performed(number) => Reached::Performed(number),
            AtOnce::Committed(number) => {
                self.stop_ended(node);
                Reached::Committed(number)
            }
        }
    }

    // Shows a node's calculator its next set if no work is under way, lays what it answers, and tells the limits how many packets wait.
    fn show<G: Gate>(&mut self, node: u32, gate: &G) -> AtOnce<C>
        requires there { node < length self.old.plan.nodes }
        requires stands { StandsForSome C.laws self.old }
        requires running { IsRunning self.old }
        ensures { ShowsAt C.laws node result self.old self.new }
    {
        self.known = false;
        let place = node as usize;
        let done = self.engines[place].work_at_once(&mut self.intakes[place], gate);
        if did_nothing(&done) {
            return done;
        }
        self.note_ports(node);
        done
    }

    // Claims a node's next work, whatever it is, and performs and commits it.
    fn turn_over<G: Gate>(&mut self, node: u32, gate: &G) -> Reached
        requires running { IsRunning self.old }
        requires stands { StandsForSome C.laws self.old }
        requires there { node < length self.old.plan.nodes }
        requires free { ¬ IsHeldSource self.old node }
        ensures { Comes C.laws node result self.old self.new }
    {
        match self.hand_out(node) {
            Claimed::Work(work) => self.finish(node, work, gate),
            Claimed::Answered => Reached::Answered,
            Claimed::NotReady => Reached::Nothing,
            Claimed::InFlightFull => Reached::Nothing,
            Claimed::Draining => Reached::Nothing,
            Claimed::Ended => Reached::Nothing,
            Claimed::OutOfMemory => Reached::NotClaimed,
        }
    }

    // Performs and commits a work that is handed out.
    fn finish<G: Gate>(&mut self, node: u32, work: Work<C>, gate: &G) -> Reached
        requires { IsHandedOut C.laws self.old node work }
        ensures { (work_queue : WorkQueueView) → slice_get self.old.work_queues node ≡ Some work_queue → StandsForSome C.laws (with_work self.old node work_queue work)
            → IsRunning (with_work self.old node work_queue work) → ComesOn C.laws node result (with_work self.old node work_queue work) self.new }
    {
        let number = work.number();
        match perform(self.alloc, work, gate) {
            Ok(performed) => self.lay(node, number, performed),
            Err(work) => {
                self.put_on_work_queue(node, work);
                Reached::Claimed
            }
        }
    }

    // Commits a work that is handed out and was performed.
    fn lay(&mut self, node: u32, number: u64, performed: Performed<C>) -> Reached
        requires { IsPerformedOut C.laws self.old node number performed }
        ensures { (work_queue : WorkQueueView) (work : WorkView) → slice_get self.old.work_queues node ≡ Some work_queue → StandsForSome C.laws (with_work self.old node work_queue work)
            → IsRunning (with_work self.old node work_queue work) → IsPerformed C.laws work performed → number ≡ work.number
            → ComesOn C.laws node result (with_work self.old node work_queue work) self.new }
    {
        self.known = false;
        let engine = &mut self.engines[node as usize];
        match engine.commit(Outcome::ran(performed)) {
            Ok(_) => {
                self.stop_ended(node);
                Reached::Committed(number)
            }
            Err(outcome) => {
                engine.shelve(outcome);
                Reached::Performed(number)
            }
        }
    }
}
