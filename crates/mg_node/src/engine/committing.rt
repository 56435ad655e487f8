//! Committing works: performed works are laid in the order of the sets, in whatever order they come back.
ghost use Rattle.std.specs.Prelude.{◌≡◌, ℕ, ◌<◌, ◌≤◌, ◌+◌, ◌-◌, ◌^◌, IfOk, IfErr, OnOk, OnErr, IsSomeAnd, is_some, true, false, None, Some, option_and_then, slice_get, slice_set};
ghost use Rattle.mg_node.specs.Job.{LoggedJob};
ghost use Rattle.mg_node.specs.Lawful.{of_node, LawfulEngine, LawfulOutcome};
ghost use Rattle.mg_node.specs.Shelves.{IsOut};
ghost use Rattle.mg_node.specs.Commits.{SomeJobHasEngine, Commits, window_with};
ghost use Rattle.mg_node.specs.Standing.{EngineGrows};
ghost use Rattle.mg_node.specs.Out.{ComesBack, KeepsSetUp};
ghost use Rattle.mg_node.specs.Code.FrontLaying.{counted_in, HasWhole, LaysFront};

use super::Engine;
use crate::Outcome;
use crate::fronts::{lay_front, reserve};
use crate::window::{put_committed, take_back};
use mg_calc::{NodeCalculator, Phase};
use std::alloc::AllocError;

impl<C: NodeCalculator> Engine<C> {
    /// Takes back a work that is out. If the work was performed, commits it, and lays what is committed at the front of the window at the
    /// outputs, entry by entry. Laying stops before the first entry that isn't committed, or after the first at which the node fails or
    /// closes. Returns how many sets or calls were laid; Close isn't counted. A work that wasn't run stands in its window and is claimed
    /// again. Out of memory: hands the work back, and nothing has changed.
    pub fn commit(&mut self, outcome: Outcome<C>) -> Result<u32, Outcome<C>>
        requires out { IsOut self.old outcome.work }
        requires lawful { SomeJobHasEngine C.laws self.old }
        ensures commits { IfOk result (λ n. Commits outcome n self.old self.new) }
        ensures returned { IfErr result (λ o. o ≡ outcome) }
        ensures unchanged { OnErr result (self.new ≡ self.old) }

        // The work is out no more, and all others that were out stay so, whatever is laid.
        ensures comes_back { OnOk result (ComesBack self.old self.new outcome.work.number) }

        // The engine stays as it was set up.
        ensures set_up { KeepsSetUp self.old self.new }

        // The engine's standing only grows.
        ensures grows { EngineGrows self.old self.new }

        // Lawful in, lawful out, for every job.
        ensures lawful { (job : LoggedJob C.laws) (number : ℕ) → LawfulEngine job (of_node number) self.old → LawfulOutcome job outcome
            → LawfulEngine job (of_node number) self.new }
    {
        self.commit_outcome(outcome)
    }

    // Commits a work, as `commit` does.
    fn commit_outcome(&mut self, outcome: Outcome<C>) -> Result<u32, Outcome<C>>
        requires out { IsOut self.old outcome.work }
        requires lawful { SomeJobHasEngine C.laws self.old }
        ensures commits { IfOk result (λ n. Commits outcome n self.old self.new) }
        ensures returned { IfErr result (λ o. o ≡ outcome) }
        ensures unchanged { OnErr result (self.new ≡ self.old) }
    {
        let number = outcome.number();
        let phase = outcome.phase();
        self.put_committed(outcome);
        match self.lay_front() {
            Ok(laid) => Ok(laid),
            Err(_) => Err(self.take_back(number, phase)),
        }
    }

    // Puts a work that is out into its place, committed if it was performed.
    fn put_committed(&mut self, outcome: Outcome<C>)
        requires { IsOut self.old outcome.work }
        ensures put { self.new ≡ record self.old { window = window_with self.old outcome } }
        ensures few { self.new.claimed < 2 ^ 64 }
    {
        let place = (outcome.number() - self.laid) as usize;
        put_committed(&mut self.window, place, outcome);
    }

    // Takes the outcome of a work out of its place again.
    fn take_back(&mut self, number: u64, phase: Phase) -> Outcome<C>
        requires laid { self.old.laid ≤ number }
        requires there { IsSomeAnd (slice_get self.old.window (number - self.old.laid)) (λ e. is_some e.outcome ≡ true) }
        ensures outcome { option_and_then (λ e. e.outcome) (slice_get self.old.window (number - self.old.laid)) ≡ Some result }
        ensures left { self.new ≡ record self.old { window = slice_set self.old.window (number - self.old.laid) (record { phase = phase; outcome = None; committed = false }) } }
    {
        let place = (number - self.laid) as usize;
        take_back(&mut self.window, place, phase)
    }

    // Lays what is ready at the front of the window. Out of memory: nothing has changed.
    pub(super) fn lay_front(&mut self) -> Result<u32, AllocError>
        requires whole { HasWhole self.old }
        requires few { self.old.laid + counted_in self.old.window < 2 ^ 64 }
        ensures laid { IfOk result (λ n. LaysFront n self.old self.new) }
        ensures unchanged { OnErr result (self.new ≡ self.old) }
    {
        if self.has_ended() {
            return Ok(0);
        }
        reserve(&mut self.outputs, &self.window)?;
        let end = lay_front(
            self.offset,
            self.node,
            &mut self.outputs,
            &mut self.window,
            &mut self.idle,
        );
        self.laid += u64::from(end.laid);
        self.closed = end.closed;
        self.fault = end.fault;
        Ok(end.laid)
    }
}
