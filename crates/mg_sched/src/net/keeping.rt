//! Streams that give up no more packets. Nothing here takes memory.
ghost use Rattle.std.specs.Prelude.{◌≡◌, ◌<◌, true, length, slice_set};
ghost use Rattle.mg_node.specs.Job.{LoggedJob};
ghost use Rattle.mg_sched.specs.StandsFor.{StandsFor, StandsForSome};
ghost use Rattle.mg_sched.specs.Trims.{Keeps};

use super::Net;
use mg_calc::NodeCalculator;

// Sets the mark at a place.
fn mark(marks: &mut [bool], place: usize)
    requires { place < length marks.old }
    ensures { marks.new ≡ slice_set marks.old place true }
{
    marks[place] = true;
}

impl<C: NodeCalculator> Net<C> {
    /// Keeps all that is laid of a stream from now on: `trim` gives up no more packets of it. What was given up before stays given up.
    pub fn keep(&mut self, stream: u32)
        requires stream { stream < length self.old.plan.streams }
        requires stands { StandsForSome C.laws self.old }
        ensures keeps { Keeps stream self.old self.new }

        // The net still stands for each job for which it stood.
        ensures stands { (job : LoggedJob C.laws) → StandsFor job self.old → StandsFor job self.new }
    {
        mark(&mut self.kept, stream as usize);
    }
}
