//! Raising outputs by what waits.
ghost use Rattle.std.specs.Prelude.{◌≡◌, ℕ};
ghost use Rattle.mg_node.specs.Job.{LoggedJob};
ghost use Rattle.mg_node.specs.Lawful.{LawfulEngine, LawfulIntake, of_node, Agree, AreCell};
ghost use Rattle.mg_node.specs.Standing.{EngineGrows};
ghost use Rattle.mg_node.specs.Advances.{advance_bound, advanced, is_advanced};
ghost use Rattle.mg_node.specs.Out.{KeepsOut, KeepsSetUp};

use super::Engine;
use crate::Intake;
use crate::raising::{moves_one, never_raises, raise_all, raised_by, until_claimed};
use mg_calc::NodeCalculator;
use mg_time::Timestamp;

impl<C: NodeCalculator> Engine<C> {
    /// Raises the bounds of the outputs as far as what waits at the node tells, and returns whether that moved one of them. Each output is
    /// raised to the least of three times, moved by the node's offset. The first time is how far the node's input sets reach. The second is
    /// the time of the first packet that waits (under Mux, on SELECT). The third is the time of the first set that is claimed and not laid.
    /// The output of a loopback is raised as far as its stream is told. An engine that has failed or closed raises nothing. Neither does an
    /// engine whose node has no offset and isn't a loopback. (MediaPipe, Synchronization: timestamp bounds.)
    pub fn advance(&mut self, intake: &Intake) -> bool
        requires cell { AreCell C.laws self.old intake.now }
        ensures advanced { self.new ≡ advanced self.old intake.now.waits }
        ensures moved { result ≡ is_advanced self.old intake.now.waits }

        // The same works are out, and the engine stays as it was set up.
        ensures out { KeepsOut self.old self.new }
        ensures set_up { KeepsSetUp self.old self.new }

        // The engine's standing only grows.
        ensures grows { EngineGrows self.old self.new }

        // Lawful in, lawful out, for every job.
        ensures lawful { (job : LoggedJob C.laws) (number : ℕ) → LawfulEngine job (of_node number) self.old → LawfulIntake job number intake.now → Agree self.old intake.now
            → LawfulEngine job (of_node number) self.new }
    {
        self.raise_outputs(intake)
    }

    // Raises the outputs as far as what waits tells, and returns whether that moved one of them.
    fn raise_outputs(&mut self, intake: &Intake) -> bool
        ensures advanced { self.new ≡ advanced self.old intake.now.waits }
        ensures moved { result ≡ is_advanced self.old intake.now.waits }
    {
        match self.advance_bound(intake) {
            Some(bound) => {
                let moved = moves_one(&self.outputs, bound);
                raise_all(&mut self.outputs, bound);
                moved
            }
            None => false,
        }
    }

    // The bound to which the outputs are raised, if they are.
    fn advance_bound(&self, intake: &Intake) -> Option<Timestamp>
        ensures { result ≡ advance_bound self.now intake.now.waits }
    {
        if self.has_ended() {
            return None;
        }
        if never_raises(self.role, self.offset) {
            return None;
        }
        let until = until_claimed(&self.window, intake.horizon());
        raised_by(self.role, self.offset, until)
    }
}
