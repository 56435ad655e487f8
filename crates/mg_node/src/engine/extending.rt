//! Extending the engine of a graph input by packets that came later.
ghost use Rattle.std.specs.Prelude.{◌≡◌, ◌<◌, ℕ, List, OnOk, OnErr, length, slice_index_or};
ghost use Rattle.mg_value.specs.Payload.{Plain};
ghost use Rattle.mg_settled.specs.Prefix.{StreamPrefix, empty_prefix};
ghost use Rattle.mg_node.specs.Views.{EngineView};
ghost use Rattle.mg_node.specs.Job.{LoggedJob, Solves};
ghost use Rattle.mg_node.specs.Lawful.{of_input, LawfulEngine};
ghost use Rattle.mg_node.specs.Extending.{joined, extended, MayExtend, WasExtended, SomeExtended};

use super::Engine;
use crate::laid::{lengthen, shorten};
use mg_calc::NodeCalculator;
use mg_settled::Prefix;
use mg_time::Timestamp;
use std::alloc::AllocError;

impl<C: NodeCalculator> Engine<C> {
    /// Goes on with more of the graph input's stream: the further packets stand after those that its output keeps. Payloads are shared. Out
    /// of memory: nothing has changed.
    pub fn extend(&mut self, more: &Prefix) -> Result<(), AllocError>
        requires { MayExtend C.laws self.old more.now }
        ensures engine { OnOk result (self.new ≡ extended self.old more.now) }
        ensures unchanged { OnErr result (self.new ≡ self.old) }

        // If the engine was lawful for a job, it is then lawful for every job with the longer stream of this input. The longer stream is
        // the first job's stream of this input with the further packets after it.
        ensures lawful { (job later : LoggedJob C.laws) (input : ℕ) (streams longer : List (StreamPrefix Plain)) → LawfulEngine job (of_input input) self.old → Solves job streams
            → Solves later longer → input < length later.job.plan.inputs
            → slice_index_or longer input empty_prefix ≡ joined (slice_index_or streams input empty_prefix) more.now
            → OnOk result (LawfulEngine later (of_input input) self.new) }
    {
        lengthen(&mut self.outputs[0], more)?;
        Ok(())
    }

    /// Undoes the last `extend`, which was by `more`: takes back its packets, and gives the output `bound`, the bound that it had before.
    /// The engine is then as it was.
    pub fn shorten(&mut self, more: &Prefix, bound: Timestamp)
        requires { SomeExtended C.laws more.now bound self.old }
        ensures { (before : EngineView) → WasExtended C.laws more.now bound before self.old → self.new ≡ before }
    {
        shorten(&mut self.outputs[0], more, bound);
    }
}
