ghost use Rattle.std.specs.Prelude.{◌≡◌};

use crate::Work;
use mg_calc::{Cause, Emission, NodeCalculator, Phase};
use std::marker::Model;

/// A work that is done: the calculator has answered, with an emission or a cause.
#[derive(Drop)]
pub struct Performed<C: NodeCalculator> {
    work: Work<C>,
    answer: Result<Emission, Cause>,
}

impl<C: NodeCalculator> Model for Performed<C> {
    ghost use Rattle.mg_node.specs.Views.{PerformedView};
    ghost use Rattle.mg_node.specs.Codes.{performed_code};

    ghost Value = { PerformedView };

    ghost coded = { performed_code };

    ghost view = { λ p. record { work = p.work; answer = p.answer } };
}

impl<C: NodeCalculator> Performed<C> {
    /// Makes a work with its answer.
    pub(crate) fn new(work: Work<C>, answer: Result<Emission, Cause>) -> Performed<C>
        ensures { result ≡ record { work = work; answer = answer } }
    {
        Performed { work, answer }
    }

    /// Returns the work, and the answer.
    pub(crate) fn into_parts(self) -> (Work<C>, Result<Emission, Cause>)
        ensures work { result.0 ≡ self.work }
        ensures answer { result.1 ≡ self.answer }
    {
        let Performed { work, answer } = self;
        (work, answer)
    }

    /// Returns the number of the node whose work it was.
    pub fn node(&self) -> u32
        ensures { result ≡ self.now.work.node }
    {
        self.work.node()
    }

    /// Returns the work's number, counted from 0.
    pub fn number(&self) -> u64
        ensures { result ≡ self.now.work.number }
    {
        self.work.number()
    }

    /// Returns what was done: Process, Call or Close.
    pub fn phase(&self) -> Phase
        ensures { result ≡ self.now.work.phase }
    {
        self.work.phase()
    }
}
