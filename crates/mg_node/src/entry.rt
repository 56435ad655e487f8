ghost use Rattle.std.specs.Prelude.{◌≡◌, Some, None, true, false, is_some, option_map, option_and_then, OnOk, OnErr};
ghost use Rattle.mg_node.specs.Claims.{is_unrun};
ghost use Rattle.mg_node.specs.Views.{PerformedView};
ghost use Rattle.mg_node.specs.Shelves.{back, shelf_of};
ghost use Rattle.mg_node.specs.Begun.{opened_entry};
ghost use Rattle.mg_node.specs.Commits.{committed_entry};
ghost use Rattle.mg_node.specs.Windows.{ready_of};
ghost use Rattle.mg_node.specs.Leaving.{calculator_in, handed_told};
ghost use Rattle.mg_node.specs.WindingUp.{FinishesBack, FinishesEntry};
ghost use Rattle.mg_node.specs.Code.QueueLaying.{packets_by};

use crate::{Context, Outcome, Performed, Work};
use mg_calc::{Cause, Emission, NodeCalculator, Phase};
use std::alloc::{AllocError, Global};
use std::marker::Model;

/// An entry of a window: a work that was claimed and isn't laid. The work is out, or its outcome stands here.
#[derive(Drop)]
pub struct Entry<C: NodeCalculator> {
    phase: Phase,
    outcome: Option<Outcome<C>>,
    committed: bool,
}

impl<C: NodeCalculator> Model for Entry<C> {
    ghost use Rattle.mg_node.specs.Views.{EntryView};
    ghost use Rattle.mg_node.specs.Codes.{entry_code};

    ghost Value = { EntryView };

    ghost coded = { entry_code };

    ghost view = { λ e. record { phase = e.phase; outcome = e.outcome; committed = e.committed } };
}

// Closes the calculator of the work that came back, if there is one, unless that was a performed Close. Out of memory: nothing has
// changed.
fn finish_back<C: NodeCalculator>(
    outcome: &mut Option<Outcome<C>>,
    alloc: Global,
) -> Result<(), AllocError>
    ensures finished { OnOk result (FinishesBack C.laws outcome.old outcome.new) }
    ensures unchanged { OnErr result (outcome.new ≡ outcome.old) }
{
    let Some(outcome) = outcome else {
        return Ok(());
    };
    outcome.finish(alloc)
}

impl<C: NodeCalculator> Entry<C> {
    /// Makes the entry of a work that is handed out.
    pub(crate) fn out(phase: Phase) -> Entry<C>
        ensures { result ≡ record { phase = phase; outcome = None; committed = false } }
    {
        Entry {
            phase,
            outcome: None,
            committed: false,
        }
    }

    /// Returns what is to be done: Process, Call or Close.
    pub(crate) fn phase(&self) -> Phase
        ensures { result ≡ self.now.phase }
    {
        self.phase
    }

    /// Returns whether the entry's work came back unrun.
    pub(crate) fn is_unrun(&self) -> bool
        ensures { result ≡ is_unrun self.now }
    {
        match &self.outcome {
            Some(outcome) => outcome.is_unrun(),
            None => false,
        }
    }

    /// Hands out the entry's work, which must have come back unrun.
    pub(crate) fn hand_out(&mut self) -> Work<C>
        requires { is_unrun self.old ≡ true }
        ensures work { self.old.outcome ≡ Some (record { work = result; answer = None }) }
        ensures left { self.new ≡ record { phase = self.old.phase; outcome = None; committed = false } }
    {
        self.committed = false;
        match self.outcome.take() {
            Some(outcome) => outcome.into_work(),
            None => unreachable!(),
        }
    }

    /// Makes the entry of a work that came back, not committed.
    pub(crate) fn back(outcome: Outcome<C>) -> Entry<C>
        ensures { result ≡ back outcome }
    {
        Entry {
            phase: outcome.phase(),
            outcome: Some(outcome),
            committed: false,
        }
    }

    /// Makes the entry of a work that came back, committed if it was performed.
    pub(crate) fn committed(outcome: Outcome<C>) -> Entry<C>
        ensures { result ≡ committed_entry outcome }
    {
        let committed = !outcome.is_unrun();
        Entry {
            committed,
            ..Entry::back(outcome)
        }
    }

    /// Makes the entry of a calculator that was opened, with its answer, committed.
    pub(crate) fn opened(
        node: u32,
        context: Context<C>,
        answer: Result<Emission, Cause>,
    ) -> Entry<C>
        ensures { result ≡ opened_entry node context answer }
    {
        let work = Work::new(node, 0, Phase::Open, context);
        Entry::committed(Outcome::ran(Performed::new(work, answer)))
    }

    /// Returns whether the entry is ready to be laid: it is committed, and its work was performed.
    pub(crate) fn is_ready(&self) -> bool
        ensures { result ≡ is_some (ready_of self.now) }
    {
        if !self.committed {
            return false;
        }
        match &self.outcome {
            Some(outcome) => !outcome.is_unrun(),
            None => false,
        }
    }

    /// Returns how many packets an entry that is ready has at an output.
    pub(crate) fn packets_at(&self, output: u32) -> u32
        ensures { (p : PerformedView) → ready_of self.now ≡ Some p → result ≡ packets_by output p.answer }
    {
        match &self.outcome {
            Some(outcome) => outcome.packets_at(output),
            None => 0,
        }
    }

    /// Returns the performed work of an entry, which must be ready.
    pub(crate) fn into_performed(self) -> Performed<C>
        requires { is_some (ready_of self) ≡ true }
        ensures { ready_of self ≡ Some result }
    {
        let Entry { outcome, .. } = self;
        match outcome {
            Some(outcome) => outcome.into_performed(),
            None => unreachable!(),
        }
    }

    /// Returns the outcome that stands in the entry. There must be one.
    pub(crate) fn into_outcome(self) -> Outcome<C>
        requires { is_some self.outcome ≡ true }
        ensures { self.outcome ≡ Some result }
    {
        let Entry { outcome, .. } = self;
        match outcome {
            Some(outcome) => outcome,
            None => unreachable!(),
        }
    }

    /// Returns whether the entry has a performed work that isn't committed.
    pub(crate) fn is_shelf(&self) -> bool
        ensures { result ≡ is_some (shelf_of self.now) }
    {
        if self.committed {
            return false;
        }
        match &self.outcome {
            Some(outcome) => !outcome.is_unrun(),
            None => false,
        }
    }

    /// Takes the performed work, which must stand in the entry and not be committed.
    pub(crate) fn take_shelf(&mut self) -> Performed<C>
        requires { is_some (shelf_of self.old) ≡ true }
        ensures found { shelf_of self.old ≡ Some result }
        ensures left { self.new ≡ record { phase = result.work.phase; outcome = None; committed = false } }
    {
        let Some(outcome) = self.outcome.take() else {
            unreachable!()
        };
        let performed = outcome.into_performed();
        *self = Entry::out(performed.phase());
        performed
    }

    /// Closes the calculator of the work that came back, if there is one, unless that was a performed Close. Out of memory: nothing
    /// has changed.
    pub(crate) fn finish(&mut self, alloc: Global) -> Result<(), AllocError>
        ensures finished { OnOk result (FinishesEntry C.laws self.old self.new) }
        ensures unchanged { OnErr result (self.new ≡ self.old) }
    {
        finish_back(&mut self.outcome, alloc)
    }

    /// Returns the calculator of the outcome that stands here, if there is one and it is user-supplied.
    pub(crate) fn into_calculator(self) -> Option<C>
        ensures { option_map C.told result ≡ option_and_then handed_told (calculator_in self) }
    {
        let Entry { outcome, .. } = self;
        match outcome {
            Some(outcome) => outcome.into_context().into_calculator(),
            None => None,
        }
    }
}
