//! Claiming works.
ghost use Rattle.std.specs.Prelude.{◌≡◌, ◌<◌, ◌+◌, ℕ, ◌^◌, length, Some};
ghost use Rattle.mg_node.specs.Views.{IntakeView};
ghost use Rattle.mg_node.specs.Job.{LoggedJob};
ghost use Rattle.mg_node.specs.Lawful.{of_node, Agree, LawfulEngine, LawfulIntake, AreCell};
ghost use Rattle.mg_node.specs.Claims.{LawfulClaim, GivesOut, MayClaim, IsOver, Hands, Claims};
ghost use Rattle.mg_node.specs.IntakeStanding.{Stays, IntakeGrows};
ghost use Rattle.mg_node.specs.Standing.{EngineGrows};
ghost use Rattle.mg_node.specs.Ports.{port_queue};
ghost use Rattle.mg_node.specs.Out.{PutsOut, KeepsSetUp};
ghost use Rattle.mg_node.specs.declared.role.Role as Role;

use super::Engine;
use crate::entry::Entry;
use crate::replied::{Replied, reply};
use crate::window::{first_unrun, hand_out, is_empty};
use crate::{Claimed, Context, Intake, Role, Work};
use mg_calc::{NodeCalculator, Phase};
use mg_policy::Readiness;

impl<C: NodeCalculator> Engine<C> {
    /// Claims the next work. Returns the first of these that holds: `Ended`, if the node has failed or closed; `Work` with the first work
    /// that came back unrun; `InFlightFull`, if as many works are claimed as may be; `Draining`, if no set comes any more and works are
    /// still to be laid; `NotReady`, if neither a set nor the end can be told; `Answered`, if the loopback has answered; `Work` with the
    /// next set, call or Close. Only a loopback's answer takes memory. Out of memory: returns `OutOfMemory`.
    pub fn claim(&mut self, intake: &mut Intake) -> Claimed<C>
        requires cell { AreCell C.laws self.old intake.old }
        ensures claims { Claims result self.old self.new intake.old intake.new }
        ensures out { GivesOut result self.new }

        // A work that is handed out is one more work that is out, and all others that were out stay so.
        ensures puts_out { PutsOut result self.old self.new }

        // The engine stays as it was set up, and at each port as many packets are counted as before.
        ensures set_up { KeepsSetUp self.old self.new }
        ensures ports { (port : ℕ) → Stays (port_queue intake.old.waits port) (port_queue intake.new.waits port) }

        // The standing of both only grows.
        ensures grows { EngineGrows self.old self.new }
        ensures intake_grows { IntakeGrows intake.old intake.new }

        // Lawful in, lawful out, for every job.
        ensures lawful { (job : LoggedJob C.laws) (number : ℕ) → LawfulEngine job (of_node number) self.old → LawfulIntake job number intake.old
            → Agree self.old intake.old → LawfulClaim job number result self.new intake.new }
    {
        self.claim_next(intake)
    }

    // Claims the next work, as `claim` does.
    fn claim_next(&mut self, intake: &mut Intake) -> Claimed<C>
        requires cell { AreCell C.laws self.old intake.old }
        ensures { Claims result self.old self.new intake.old intake.new }
    {
        if self.has_ended() {
            return Claimed::Ended;
        }
        if let Some(place) = first_unrun(&self.window) {
            return Claimed::Work(hand_out(&mut self.window, place));
        }
        if self.window.len() >= self.in_flight as usize {
            return Claimed::InFlightFull;
        }
        match self.role {
            Role::Input => unreachable!(),
            Role::Source { calls } => self.claim_call(calls),
            Role::Loop => self.claim_answer(intake),
            Role::Sets => self.claim_set(intake),
        }
    }

    // Claims the next call of a source.
    fn claim_call(&mut self, calls: u32) -> Claimed<C>
        requires may { MayClaim self.old }
        requires role { self.old.role ≡ Role.Source calls }
        ensures { (intake : IntakeView) → Claims result self.old self.new intake intake }
    {
        let number = self.claimed;
        if number >= u64::from(calls) {
            return self.claim_close();
        }
        let context = self.take_context(Phase::Call(number), 1);
        Claimed::Work(Work::new(self.node, number, Phase::Call(number), context))
    }

    // Claims the next set.
    fn claim_set(&mut self, intake: &mut Intake) -> Claimed<C>
        requires may { MayClaim self.old }
        requires role { self.old.role ≡ Role.Sets }
        requires cell { AreCell C.laws self.old intake.old }
        ensures { Claims result self.old self.new intake.old intake.new }
    {
        match intake.set_readiness() {
            Readiness::NotReady => Claimed::NotReady,
            Readiness::Close => self.claim_close(),
            Readiness::Ready { at } => {
                let number = self.claimed;
                let mut context = self.take_context(Phase::Process(at), 1);
                context.fill(at, intake);
                Claimed::Work(Work::new(self.node, number, Phase::Process(at), context))
            }
        }
    }

    // Answers the next packet of MAIN, and lays its answer.
    fn claim_answer(&mut self, intake: &mut Intake) -> Claimed<C>
        requires may { MayClaim self.old }
        requires role { self.old.role ≡ Role.Loop }
        requires cell { AreCell C.laws self.old intake.old }
        ensures { Claims result self.old self.new intake.old intake.new }
    {
        if intake.is_over() {
            return self.claim_close();
        }
        match reply(&mut self.outputs[0], intake) {
            Replied::NotYet => Claimed::NotReady,
            Replied::OutOfMemory => Claimed::OutOfMemory,
            Replied::Laid => {
                self.laid += 1;
                self.claimed += 1;
                Claimed::Answered
            }
        }
    }

    // Claims Close, once all else is laid.
    fn claim_close(&mut self) -> Claimed<C>
        requires { MayClaim self.old }
        ensures { (intake : IntakeView) → IsOver self.old.role self.old.claimed intake.waits → Claims result self.old self.new intake intake }
    {
        if !is_empty(&self.window) {
            return Claimed::Draining;
        }
        let number = self.claimed;
        let context = self.take_context(Phase::Close, 0);
        Claimed::Work(Work::new(self.node, number, Phase::Close, context))
    }

    // Takes the last idle context for a work that is handed out.
    pub(super) fn take_context(&mut self, phase: Phase, more: u64) -> Context<C>
        requires room { length self.old.window < self.old.in_flight }
        requires fits { self.old.claimed + more < 2 ^ 64 }
        ensures { Hands self.old self.new phase more result }
    {
        let context = self.idle.take_last();
        self.window.push_back_reserved(Entry::out(phase));
        self.claimed += more;
        context
    }
}
