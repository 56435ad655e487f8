//! Doing the next set at once: it is shown to a calculator in its context, and the answer is laid.
ghost use Rattle.std.specs.Prelude.{◌≡◌, ◌<◌, ◌≤◌, ◌+◌, ◌^◌, ℕ, length, None, true, OnOk, OnErr, IfErr};
ghost use Rattle.mg_policy.specs.declared.readiness.Readiness as Readiness;
ghost use Rattle.mg_node.specs.Job.{LoggedJob};
ghost use Rattle.mg_node.specs.Lawful.{of_node, LawfulEngine, LawfulIntake, Agree, AreCell};
ghost use Rattle.mg_node.specs.Ports.{IsNext};
ghost use Rattle.mg_node.specs.AtOnce.{MayShow, DoesAtOnce, IsShown};
ghost use Rattle.mg_node.specs.Code.FrontLaying.{HasWhole};
ghost use Rattle.mg_node.specs.Code.Showing.{Shows, LaysAnswer, HandsShown};

use super::Engine;
use crate::fronts::{note_fault, reserve_for};
use crate::laying::lay;
use crate::window::is_empty;
use crate::{AtOnce, Intake, Outcome, Performed, Role, Work};
use mg_calc::{Cause, Emission, NodeCalculator, Phase};
use mg_edge::Gate;
use mg_policy::Readiness;
use mg_time::Timestamp;

impl<C: NodeCalculator> Engine<C> {
    /// If no work is under way, claims the next set, shows it to the node's calculator and lays the answer. The calculator stays in its
    /// context, and the gate is round its call. If a claim may answer with something else than a set, nothing changes. Out of memory:
    /// returns the claimed work, or leaves the performed work in its window.
    pub fn work_at_once<G: Gate>(&mut self, intake: &mut Intake, gate: &G) -> AtOnce<C>
        requires cell { AreCell C.laws self.old intake.old }
        ensures does { DoesAtOnce C.laws result self.old self.new intake.old intake.new }
        ensures shown { (at : ℕ) → MayShow self.old → IsNext intake.old.waits (Readiness.Ready at) → IsShown result }

        // Lawful in, lawful out, for every job.
        ensures lawful { (job : LoggedJob C.laws) (number : ℕ) → LawfulEngine job (of_node number) self.old → LawfulIntake job number intake.old
            → Agree self.old intake.old → LawfulEngine job (of_node number) self.new × LawfulIntake job number intake.new }
    {
        self.do_next(intake, gate)
    }

    // Does the next set at once, as `work_at_once` does.
    fn do_next<G: Gate>(&mut self, intake: &mut Intake, gate: &G) -> AtOnce<C>
        requires cell { AreCell C.laws self.old intake.old }
        ensures does { DoesAtOnce C.laws result self.old self.new intake.old intake.new }
        ensures shown { (at : ℕ) → MayShow self.old → IsNext intake.old.waits (Readiness.Ready at) → IsShown result }
    {
        if !self.may_show() {
            return AtOnce::Other;
        }
        match intake.set_readiness() {
            Readiness::NotReady => AtOnce::NotReady,
            Readiness::Close => AtOnce::Other,
            Readiness::Ready { at } => self.show_next(at, intake, gate),
        }
    }

    // Whether the node goes on and is shown sets, no work is under way, and a context is idle.
    fn may_show(&self) -> bool
        ensures may { result ≡ true → MayShow self.now }
        ensures only { MayShow self.now → result ≡ true }
    {
        let Role::Sets = self.role else {
            return false;
        };
        if self.has_ended() {
            return false;
        }
        is_empty(&self.window) && !self.idle.is_empty()
    }

    // Shows the next set, and lays the answer, as far as there is memory.
    fn show_next<G: Gate>(&mut self, at: Timestamp, intake: &mut Intake, gate: &G) -> AtOnce<C>
        requires cell { AreCell C.laws self.old intake.old }
        requires may { MayShow self.old }
        requires next { IsNext intake.old.waits (Readiness.Ready at) }
        ensures does { DoesAtOnce C.laws result self.old self.new intake.old intake.new }
        ensures shown { IsShown result }
    {
        let number = self.claimed;
        let Some(answer) = self.show(at, intake, gate) else {
            return AtOnce::Claimed(self.take_shown(at));
        };
        match self.lay_answer(at, answer) {
            Ok(()) => AtOnce::Committed(number),
            Err(answer) => {
                let work = self.take_shown(at);
                self.shelve(Outcome::ran(Performed::new(work, answer)));
                AtOnce::Performed(number)
            }
        }
    }

    // Shows the next set to the calculator of the last idle context, and returns its answer. Out of memory: returns `None`.
    fn show<G: Gate>(
        &mut self,
        at: Timestamp,
        intake: &mut Intake,
        gate: &G,
    ) -> Option<Result<Emission, Cause>>
        requires cell { AreCell C.laws self.old intake.old }
        requires may { MayShow self.old }
        requires next { IsNext intake.old.waits (Readiness.Ready at) }
        ensures { Shows C.laws result at self.old self.new intake.old intake.new }
    {
        let mut context = self.idle.take_last();
        context.fill(at, intake);
        gate.enter(self.node, self.claimed);
        let answer = context.show(self.alloc, at);
        gate.leave(self.node, self.claimed);
        self.idle.push_reserved(context);
        answer
    }

    // Lays the answer to a set, and counts the set as claimed and laid. Out of memory: hands the answer back, and nothing has changed.
    fn lay_answer(
        &mut self,
        at: Timestamp,
        answer: Result<Emission, Cause>,
    ) -> Result<(), Result<Emission, Cause>>
        requires whole { HasWhole self.old }
        requires goes { self.old.fault ≡ None }
        requires laid { self.old.laid ≤ self.old.claimed }
        requires few { self.old.claimed + 1 < 2 ^ 64 }
        ensures laid { OnOk result (LaysAnswer at answer self.old self.new) }
        ensures returned { IfErr result (λ a. a ≡ answer) }
        ensures unchanged { OnErr result (self.new ≡ self.old) }
    {
        let Ok(()) = reserve_for(&mut self.outputs, &answer) else {
            return Err(answer);
        };
        let phase = Phase::Process(at);
        let cause = lay(self.offset, &phase, &mut self.outputs, answer);
        self.laid += 1;
        self.claimed += 1;
        note_fault(&mut self.fault, self.node, &phase, cause);
        Ok(())
    }

    // Hands out the work of the set in the last idle context.
    fn take_shown(&mut self, at: Timestamp) -> Work<C>
        requires context { 0 < length self.old.idle }
        requires room { length self.old.window < self.old.in_flight }
        requires few { self.old.claimed + 1 < 2 ^ 64 }
        ensures { HandsShown at result self.old self.new }
    {
        let number = self.claimed;
        let context = self.take_context(Phase::Process(at), 1);
        Work::new(self.node, number, Phase::Process(at), context)
    }
}
