//! Delivering what was laid, and giving it up.
ghost use Rattle.std.specs.Prelude.{◌≡◌, ◌<◌, ◌≤◌, length, slice_get, slice_set, Some, false, slice_index_or};
ghost use Rattle.mg_stream.specs.Pool.{empty_backlog};
ghost use Rattle.mg_node.specs.Job.{LoggedJob, ports_of};
ghost use Rattle.mg_node.specs.Lawful.{Owner, LawfulEngine, LawfulIntake};
ghost use Rattle.mg_node.specs.Outputs.{count_at, without_first};
ghost use Rattle.mg_node.specs.Delivery.{Delivers};
ghost use Rattle.mg_node.specs.declared.delivered.Delivered as Delivered;
ghost use Rattle.mg_node.specs.IntakeStanding.{IntakeGrows};
ghost use Rattle.mg_node.specs.Standing.{EngineGrows};
ghost use Rattle.mg_node.specs.Leading.{output_at, Leads};

use super::Engine;
use crate::delivery::deliver;
use crate::laid::give_up;
use crate::{Delivered, Intake};
use mg_calc::{Edge, NodeCalculator};

impl<C: NodeCalculator> Engine<C> {
    /// Brings at most `most` packets along an edge to the port that hasn't got them, and the bound once all are there. Nothing of the
    /// engine changes.
    pub fn deliver(&self, edge: Edge, intake: &mut Intake, most: u32) -> Delivered
        requires { Leads C.laws self.now edge intake.old }
        ensures moved { Delivers result (output_at self.now edge) edge.port most intake.old.waits intake.new.waits }
        ensures claimed { intake.new.claimed ≡ intake.old.claimed }

        // If no packet came and the bound didn't rise, nothing has changed, nor has the room.
        ensures still { result ≡ Delivered.Moved 0 false → intake.new ≡ intake.old }

        // The intake's standing only grows.
        ensures grows { IntakeGrows intake.old intake.new }

        // Lawful in, lawful out, for every job.
        ensures lawful { (job : LoggedJob C.laws) (owner : Owner) → LawfulEngine job owner self.now → LawfulIntake job edge.node intake.old
            → slice_get (ports_of job.job.plan edge.node) edge.port ≡ Some edge.stream → LawfulIntake job edge.node intake.new }
    {
        let output = &self.outputs[(edge.stream - self.first) as usize];
        deliver(output, intake, edge.port, most)
    }

    /// Gives up packets of an output that all its edges have got: the first ones, until `got` packets are given up in all.
    pub fn give_up(&mut self, output: u32, got: u64)
        requires output { output < length self.old.outputs }
        requires laid { got ≤ count_at self.old output }
        ensures given_up { self.new ≡ record self.old { outputs = slice_set self.old.outputs output (without_first got (slice_index_or self.old.outputs output empty_backlog)) } }

        // The engine's standing only grows.
        ensures grows { EngineGrows self.old self.new }

        // Lawful in, lawful out, for every job.
        ensures lawful { (job : LoggedJob C.laws) (owner : Owner) → LawfulEngine job owner self.old → LawfulEngine job owner self.new }
    {
        give_up(&mut self.outputs[output as usize], got);
    }
}
