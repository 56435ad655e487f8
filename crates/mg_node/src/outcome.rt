ghost use Rattle.std.specs.Prelude.{◌≡◌, Some, None, true, false, List, Result, is_some, if◌then◌else◌, OnOk, OnErr};
ghost use Rattle.mg_calc.specs.declared.cause.Cause.{Cause};
ghost use Rattle.mg_calc.specs.declared.emission.Laid.{Laid};
ghost use Rattle.mg_node.specs.Shelves.{outcome_of, performed_of};
ghost use Rattle.mg_node.specs.Job.{LoggedJob};
ghost use Rattle.mg_node.specs.Lawful.{LawfulWork, LawfulPerformed, LawfulOutcome};
ghost use Rattle.mg_node.specs.WindingUp.{was_closed, FinishesWork};
ghost use Rattle.mg_node.specs.Code.QueueLaying.{packets_by};

use crate::laying::packets_in;
use crate::{Context, Performed, Work};
use mg_calc::{Cause, Emission, NodeCalculator, Phase};
use std::alloc::{AllocError, Global};
use std::marker::Model;

/// What comes back of a work: it was performed, or it wasn't run.
#[derive(Drop)]
pub struct Outcome<C: NodeCalculator> {
    work: Work<C>,
    answer: Option<Result<Emission, Cause>>,
}

impl<C: NodeCalculator> Model for Outcome<C> {
    ghost use Rattle.mg_node.specs.Views.{OutcomeView};
    ghost use Rattle.mg_node.specs.Codes.{outcome_code};

    ghost Value = { OutcomeView };

    ghost coded = { outcome_code };

    ghost view = { λ o. record { work = o.work; answer = o.answer } };
}

impl<C: NodeCalculator> Outcome<C> {
    /// Makes the outcome of a work that wasn't run.
    pub fn unrun(work: Work<C>) -> Outcome<C>
        ensures outcome { result ≡ record { work = work; answer = None } }

        // Lawful in, lawful out, for every job.
        ensures lawful { (job : LoggedJob C.laws) → LawfulWork job work → LawfulOutcome job result }
    {
        Outcome { work, answer: None }
    }

    /// Makes the outcome of a work that was performed.
    pub fn ran(performed: Performed<C>) -> Outcome<C>
        ensures outcome { result ≡ outcome_of performed }

        // Lawful in, lawful out, for every job.
        ensures lawful { (job : LoggedJob C.laws) → LawfulPerformed job performed → LawfulOutcome job result }
    {
        let (work, answer) = performed.into_parts();
        Outcome {
            work,
            answer: Some(answer),
        }
    }

    /// Returns the number of the node whose work it is.
    pub fn node(&self) -> u32
        ensures { result ≡ self.now.work.node }
    {
        self.work.node()
    }

    /// Returns the work's number, counted from 0.
    pub fn number(&self) -> u64
        ensures { result ≡ self.now.work.number }
    {
        self.work.number()
    }

    /// Returns what was to be done: Process, Call or Close.
    pub fn phase(&self) -> Phase
        ensures { result ≡ self.now.work.phase }
    {
        self.work.phase()
    }

    /// Returns whether the work wasn't run.
    pub(crate) fn is_unrun(&self) -> bool
        ensures { result ≡ (if is_some self.now.answer then false else true) }
    {
        match &self.answer {
            Some(_) => false,
            None => true,
        }
    }

    /// Returns whether the work was Close and was performed.
    fn was_closed(&self) -> bool
        ensures { result ≡ was_closed self.now }
    {
        let Phase::Close = self.phase() else {
            return false;
        };
        self.answer.is_some()
    }

    /// Closes the calculator, unless the work was a performed Close. Out of memory: nothing has changed.
    pub(crate) fn finish(&mut self, alloc: Global) -> Result<(), AllocError>
        ensures finished { OnOk result (FinishesWork C.laws self.old self.new) }
        ensures unchanged { OnErr result (self.new ≡ self.old) }
    {
        if self.was_closed() {
            return Ok(());
        }
        self.work.finish(alloc)
    }

    /// Returns how many packets were emitted at an output.
    pub(crate) fn packets_at(&self, output: u32) -> u32
        ensures { (answer : Result (List Laid) Cause) → self.now.answer ≡ Some answer → result ≡ packets_by output answer }
    {
        match &self.answer {
            Some(Ok(emission)) => packets_in(emission, output),
            Some(Err(_)) => 0,
            None => 0,
        }
    }

    /// Returns the work, which must not have been run.
    pub(crate) fn into_work(self) -> Work<C>
        requires { self.answer ≡ None }
        ensures { self ≡ record { work = result; answer = None } }
    {
        let Outcome { work, .. } = self;
        work
    }

    /// Returns the performed work. The work must have been performed.
    pub(crate) fn into_performed(self) -> Performed<C>
        requires { is_some self.answer ≡ true }
        ensures { performed_of self ≡ Some result }
    {
        let Outcome { work, answer } = self;
        match answer {
            Some(answer) => Performed::new(work, answer),
            None => unreachable!(),
        }
    }

    /// Returns the context of the work.
    pub(crate) fn into_context(self) -> Context<C>
        ensures { result ≡ self.work.context }
    {
        let Outcome { work, .. } = self;
        work.into_context()
    }
}
