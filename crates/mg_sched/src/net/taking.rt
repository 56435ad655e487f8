//! How the sets of the graph's outputs leave a net.
ghost use Rattle.std.specs.Prelude.{◌≡◌, List, length};
ghost use Rattle.std.specs.Bool.{OnTrue};
ghost use Rattle.mg_value.specs.Payload.{Plain};
ghost use Rattle.mg_settled.specs.Prefix.{StreamPrefix};
ghost use Rattle.mg_node.specs.Job.{LoggedJob, Solves};
ghost use Rattle.mg_node.specs.Intakes.{HasSet};
ghost use Rattle.mg_sched.specs.StandsFor.{StandsFor, StandsForSome};
ghost use Rattle.mg_sched.specs.Taking.{TakesOut, taken_out};

use super::Net;
use crate::agenda::touch;
use mg_calc::NodeCalculator;
use mg_settled::InputSet;

impl<C: NodeCalculator> Net<C> {
    /// Takes the next settled set of the graph's outputs, and returns whether there was one. The set is then in `into`, which has a place
    /// for each output. If there was none nothing changes.
    pub fn take_out(&mut self, into: &mut InputSet) -> bool
        requires places { length into.old ≡ length self.old.plan.outputs }
        requires stands { StandsForSome C.laws self.old }
        ensures taken { TakesOut result into.old into.new self.old self.new }
        ensures stands { (job : LoggedJob C.laws) → StandsFor job self.old → StandsFor job self.new }

        // The set is the one that the solution has under the same number.
        ensures in_solution { (job : LoggedJob C.laws) (streams : List (StreamPrefix Plain)) → Solves job streams → StandsFor job self.old
            → OnTrue result (HasSet job streams (length self.old.plan.nodes) (taken_out self.old) into.new) }
    {
        let place = self.plan.nodes.len();
        if !self.intakes[place as usize].claim(into) {
            return false;
        }
        touch(&mut self.agenda, place);
        self.note_ports(place);
        true
    }
}
