//! How works are claimed.
ghost use Rattle.std.specs.Prelude.{◌≡◌, ◌<◌, ◌≤◌, ◌+◌, ◌^◌, ℕ, length, slice_get, Some, true, false};
ghost use Rattle.mg_sched.specs.StandsFor.{StandsForSome, IsRunning};
ghost use Rattle.mg_sched.specs.Views.{WorkQueueView};
ghost use Rattle.mg_sched.specs.Code.AtOnce.{NodeHandsOut, took_none, with_work};
ghost use Rattle.mg_node.specs.Ports.{ports_in, port_queue};
ghost use Rattle.mg_sched.specs.Places.{lengths_of, first_edge};
ghost use Rattle.mg_calc.specs.declared.plan_node.PlanNode.{PlanNode};
ghost use Rattle.mg_node.specs.Views.{IntakeView};
ghost use Rattle.mg_sched.specs.Code.Tables.{IsFeederOf};
ghost use Rattle.mg_sched.specs.Acts.{IsHeldSource, NodeClaims as ClaimedAt, ClaimsNext, all_noted, with_noted};

use super::Net;
use mg_calc::{Effect, NodeCalculator};
use mg_node::{Claimed, Intake, Work};
use mg_throttle::Limits;

// Tells limits how many packets wait at each port of an intake. The edges into its ports have the numbers from `first` on. Most intakes have
// a single port.
#[inline(always)]
fn note_all(limits: &mut Limits, first: u32, intake: &Intake)
    requires queues { first + ports_in intake.now.waits ≤ length limits.old.queues }
    requires short { length limits.old.queues < 2 ^ 32 }
    requires few { (port : ℕ) → length (port_queue intake.now.waits port).packets + 1 < 2 ^ 64 }
    ensures { limits.new ≡ record limits.old { queues = all_noted limits.old.queues first (lengths_of intake.now.waits) } }
{
    if intake.ports() == 1 {
        limits.note(first, intake.waiting(0));
        return;
    }
    note_each(limits, first, intake);
}

// Tells limits how many packets wait at each port of an intake, one port after the other. The edges into its ports have the numbers from
// `first` on.
fn note_each(limits: &mut Limits, first: u32, intake: &Intake)
    requires queues { first + ports_in intake.now.waits ≤ length limits.old.queues }
    requires short { length limits.old.queues < 2 ^ 32 }
    requires few { (port : ℕ) → length (port_queue intake.now.waits port).packets + 1 < 2 ^ 64 }
    ensures { limits.new ≡ record limits.old { queues = all_noted limits.old.queues first (lengths_of intake.now.waits) } }
{
    for port in 0..intake.ports() {
        limits.note(first + port, intake.waiting(port));
    }
}

// Whether a claim took nothing from the intake.
fn took_none<C: NodeCalculator>(claimed: &Claimed<C>) -> bool
    ensures { result ≡ took_none claimed.now }
{
    match claimed {
        Claimed::NotReady => true,
        Claimed::InFlightFull => true,
        Claimed::Draining => true,
        Claimed::Ended => true,
        Claimed::Work(_) => false,
        Claimed::Answered => false,
        Claimed::OutOfMemory => false,
    }
}

impl<C: NodeCalculator> Net<C> {
    /// Claims the next work of a node, unless it is a source that is throttled.
    pub(super) fn claim(&mut self, node: u32) -> Effect
        requires there { node < length self.old.plan.nodes }
        requires stands { StandsForSome C.laws self.old }
        requires running { IsRunning self.old }
        ensures { ClaimedAt node result self.old self.new }
    {
        if self.is_held_source(node) {
            return Effect::Idle;
        }
        self.claim_next(node)
    }

    // Whether a node is a source that is throttled.
    pub(super) fn is_held_source(&self, node: u32) -> bool
        requires there { node < length self.now.plan.nodes }
        requires stands { StandsForSome C.laws self.now }
        ensures held { result ≡ true → IsHeldSource self.now node }
        ensures not_held { result ≡ false → ¬ IsHeldSource self.now node }
    {
        match self.own_feeder(node) {
            Some(feeder) => !self.limits.may_feed(feeder),
            None => false,
        }
    }

    // Returns the number of the feeder that a node is, if it is a source.
    fn own_feeder(&self, node: u32) -> Option<u32>
        requires { node < length self.now.plan.nodes }
        ensures { (planned : PlanNode) → slice_get self.now.plan.nodes node ≡ Some planned → IsFeederOf self.now.plan node planned result }
    {
        self.own_feeders[node as usize]
    }

    // Returns the number of the first edge into a consumer.
    pub(super) fn first_edge(&self, place: u32) -> u32
        requires { place ≤ length self.now.plan.nodes }
        ensures { result ≡ first_edge self.now.plan place }
    {
        self.first_edges[place as usize]
    }

    // Claims the next work of a node, lays it in the node's work queue, and tells the limits how many packets wait.
    fn claim_next(&mut self, node: u32) -> Effect
        requires there { node < length self.old.plan.nodes }
        requires stands { StandsForSome C.laws self.old }
        requires running { IsRunning self.old }
        ensures { ClaimsNext node result self.old self.new }
    {
        match self.hand_out(node) {
            Claimed::Work(work) => {
                self.put_on_work_queue(node, work);
                Effect::Did
            }
            Claimed::Answered => Effect::Did,
            Claimed::NotReady => Effect::Idle,
            Claimed::InFlightFull => Effect::Idle,
            Claimed::Draining => Effect::Idle,
            Claimed::Ended => Effect::Idle,
            Claimed::OutOfMemory => Effect::OutOfMemory,
        }
    }

    // Claims the next work of a node, hands it out, and tells the limits how many packets wait.
    pub(super) fn hand_out(&mut self, node: u32) -> Claimed<C>
        requires there { node < length self.old.plan.nodes }
        requires stands { StandsForSome C.laws self.old }
        requires running { IsRunning self.old }
        ensures { NodeHandsOut node result self.old self.new }
    {
        self.known = false;
        let place = node as usize;
        let claimed = self.engines[place].claim(&mut self.intakes[place]);
        if took_none(&claimed) {
            return claimed;
        }
        self.note_ports(node);
        claimed
    }

    // Lays a work at the end of a node's work queue.
    pub(super) fn put_on_work_queue(&mut self, node: u32, work: Work<C>)
        requires there { node < length self.old.work_queues }
        requires room { (work_queue : WorkQueueView) → slice_get self.old.work_queues node ≡ Some work_queue → length work_queue.works < work_queue.room }
        ensures { (work_queue : WorkQueueView) → slice_get self.old.work_queues node ≡ Some work_queue → self.new ≡ with_work self.old node work_queue work }
    {
        self.known = false;
        self.work_queues[node as usize].put(work);
    }

    // Tells the limits how many packets wait at each port of a consumer.
    #[inline(always)]
    pub(super) fn note_ports(&mut self, place: u32)
        requires there { place < length self.old.intakes }
        requires table { place ≤ length self.old.plan.nodes }
        requires queues { (intake : IntakeView) → slice_get self.old.intakes place ≡ Some intake
            → first_edge self.old.plan place + ports_in intake.waits ≤ length self.old.limits.queues }
        requires short { length self.old.limits.queues < 2 ^ 32 }
        requires few { (intake : IntakeView) (port : ℕ) → slice_get self.old.intakes place ≡ Some intake → length (port_queue intake.waits port).packets + 1 < 2 ^ 64 }
        ensures { (intake : IntakeView) → slice_get self.old.intakes place ≡ Some intake
            → self.new ≡ with_noted self.old (first_edge self.old.plan place) (lengths_of intake.waits) }
    {
        let first = self.first_edge(place);
        note_all(&mut self.limits, first, &self.intakes[place as usize]);
    }
}
