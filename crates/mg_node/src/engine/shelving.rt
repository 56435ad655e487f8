//! Putting works back into their window as they are, and taking them out again.
ghost use Rattle.std.specs.Prelude.{◌≡◌, ◌<◌, ℕ, None, IfSome, IfNone, IsSome};
ghost use Rattle.mg_node.specs.Job.{LoggedJob};
ghost use Rattle.mg_node.specs.Lawful.{of_node, LawfulEngine, LawfulOutcome, LawfulPerformed};
ghost use Rattle.mg_node.specs.Standing.{EngineGrows};
ghost use Rattle.mg_node.specs.Commits.{SomeJobHasEngine};
ghost use Rattle.mg_node.specs.Out.{GoesOut, ComesBack, KeepsSetUp};
ghost use Rattle.mg_node.specs.Shelves.{IsOut, shelved, shelf_at, Unshelves};

use super::Engine;
use crate::window::{first_shelf, put_back, take_shelf};
use crate::{Outcome, Performed};
use mg_calc::NodeCalculator;

impl<C: NodeCalculator> Engine<C> {
    /// Takes back a work that is out, as it is: it stands in its window as unrun, or as performed and not committed.
    pub fn shelve(&mut self, outcome: Outcome<C>)
        requires out { IsOut self.old outcome.work }
        ensures shelved { self.new ≡ shelved self.old outcome }

        // The work is out no more, and all others that were out stay so.
        ensures comes_back { ComesBack self.old self.new outcome.work.number }

        // The engine stays as it was set up.
        ensures set_up { KeepsSetUp self.old self.new }

        // The engine's standing only grows.
        ensures grows { EngineGrows self.old self.new }

        // Lawful in, lawful out, for every job.
        ensures lawful { (job : LoggedJob C.laws) (number : ℕ) → LawfulEngine job (of_node number) self.old → LawfulOutcome job outcome
            → LawfulEngine job (of_node number) self.new }
    {
        let place = (outcome.number() - self.laid) as usize;
        put_back(&mut self.window, place, outcome);
    }

    /// Takes the performed work of a number, not committed, out of the window, if it stands there. The work is then out.
    pub fn unshelve(&mut self, number: u64) -> Option<Performed<C>>
        ensures found { result ≡ shelf_at self.old number }
        ensures taken { Unshelves result self.old self.new number }

        // In a lawful engine, the work that is found is the work of that number, and it is out.
        ensures numbered { (job : LoggedJob C.laws) (owner : ℕ) → LawfulEngine job (of_node owner) self.old → IfSome result (λ p. p.work.number ≡ number) }
        ensures out { (job : LoggedJob C.laws) (owner : ℕ) → LawfulEngine job (of_node owner) self.old → IfSome result (λ p. IsOut self.new p.work) }

        // The work is one more that is out, and all others that were out stay so.
        ensures goes_out { (job : LoggedJob C.laws) (owner : ℕ) → LawfulEngine job (of_node owner) self.old → IfSome result (λ p. GoesOut self.old self.new p.work) }

        // The engine stays as it was set up.
        ensures set_up { KeepsSetUp self.old self.new }

        // The engine's standing only grows.
        ensures grows { EngineGrows self.old self.new }

        // Lawful in, lawful out, for every job.
        ensures lawful { (job : LoggedJob C.laws) (owner : ℕ) → LawfulEngine job (of_node owner) self.old
            → LawfulEngine job (of_node owner) self.new × IfSome result (λ p. LawfulPerformed job p) }
    {
        self.take_shelf(number)
    }

    /// Returns the number of the first performed work in the window that isn't committed, if there is one.
    pub fn shelved(&self) -> Option<u64>
        requires { SomeJobHasEngine C.laws self.now }
        ensures some { IfSome result (λ number. IsSome (shelf_at self.now number)) }
        ensures none { IfNone result ((number : ℕ) → shelf_at self.now number ≡ None) }
    {
        let place = first_shelf(&self.window)?;
        Some(self.laid + place as u64)
    }

    // Takes a performed work out of the window, as `unshelve` does.
    fn take_shelf(&mut self, number: u64) -> Option<Performed<C>>
        ensures found { result ≡ shelf_at self.old number }
        ensures taken { Unshelves result self.old self.new number }
    {
        if number < self.laid {
            return None;
        }
        take_shelf(&mut self.window, number - self.laid)
    }
}
