//! Beginning an engine: its calculator is opened once, and the emission is laid.
ghost use Rattle.std.specs.Prelude.{◌≡◌, ◌<◌, ℕ, List, length, slice_get, Some, OnOk, OnErr, []};
ghost use Rattle.mg_value.specs.Payload.{Plain};
ghost use Rattle.mg_settled.specs.Prefix.{StreamPrefix};
ghost use Rattle.mg_calc.specs.declared.plan_node.PlanNode.{PlanNode};
ghost use Rattle.mg_route.specs.HolderView.{HolderView};
ghost use Rattle.mg_calc.specs.Equations.{sides_of};
ghost use Rattle.mg_node.specs.Job.{LoggedJob, Solves};
ghost use Rattle.mg_node.specs.Lawful.{of_node, LawfulEngine};
ghost use Rattle.mg_node.specs.Standing.{EngineGrows};
ghost use Rattle.mg_node.specs.Fresh.{fresh_engine};
ghost use Rattle.mg_node.specs.Begun.{IsUnbegun, HasOpened, HasBegun, LawfulUnbegun, SomeUnbegun, IsNew};

use super::Engine;
use crate::entry::Entry;
use crate::window::is_empty;
use mg_calc::{GivenList, NodeCalculator};
use std::alloc::AllocError;

impl<C: NodeCalculator> Engine<C> {
    /// Begins the engine of a node: opens its calculator with the node's side packets, and lays the emission. Out of memory: the engine
    /// isn't begun, and this may be called again. A calculator that was opened isn't opened again then.
    pub fn begin(&mut self, sides: &GivenList) -> Result<(), AllocError>
        requires { SomeUnbegun C.laws sides.now self.old }
        ensures begun { (node : PlanNode) (number : ℕ) (told : HolderView) → IsNew node told → IsUnbegun C.laws node number told sides.now self.old
            → OnOk result (HasBegun C.laws node number told sides.now self.new) }
        ensures unbegun { (node : PlanNode) (number : ℕ) (told : HolderView) → IsUnbegun C.laws node number told sides.now self.old
            → OnErr result (IsUnbegun C.laws node number told sides.now self.new) }

        // The engine's standing only grows.
        ensures grows { EngineGrows self.old self.new }

        // The engine is then lawful for every job that has its calculator and these side packets. Out of memory: it is still lawful as an
        // engine that isn't begun.
        ensures lawful { (job : LoggedJob C.laws) (number : ℕ) (node : PlanNode) (streams : List (StreamPrefix Plain)) → Solves job streams → slice_get job.job.plan.nodes number ≡ Some node
            → sides.now ≡ sides_of job.job node → LawfulUnbegun job number self.old → OnOk result (LawfulEngine job (of_node number) self.new) }
        ensures lawful_unbegun { (job : LoggedJob C.laws) (number : ℕ) (node : PlanNode) → slice_get job.job.plan.nodes number ≡ Some node
            → sides.now ≡ sides_of job.job node → LawfulUnbegun job number self.old → OnErr result (LawfulUnbegun job number self.new) }
    {
        self.open_once(sides)?;
        self.lay_front()?;
        self.begun = true;
        Ok(())
    }

    // Opens the calculator, unless it was opened already.
    fn open_once(&mut self, sides: &GivenList) -> Result<(), AllocError>
        requires { SomeUnbegun C.laws sides.now self.old }
        ensures opened { (node : PlanNode) (number : ℕ) (told : HolderView) → IsUnbegun C.laws node number told sides.now self.old
            → OnOk result (HasOpened C.laws node number told sides.now self.new) }
        ensures unchanged { OnErr result (self.new ≡ self.old) }
    {
        if is_empty(&self.window) {
            self.open(sides)
        } else {
            Ok(())
        }
    }

    // Opens the calculator, and keeps its answer in the window.
    fn open(&mut self, sides: &GivenList) -> Result<(), AllocError>
        requires window { self.old.window ≡ [] }
        requires context { 0 < length self.old.idle }
        ensures opened { (node : PlanNode) (number : ℕ) (told : HolderView) → self.old ≡ fresh_engine node number told
            → OnOk result (HasOpened C.laws node number told sides.now self.new) }
        ensures unchanged { OnErr result (self.new ≡ self.old) }
    {
        let mut context = self.idle.take_last();
        match context.open(self.alloc, sides) {
            Some(answer) => {
                let entry = Entry::opened(self.node, context, answer);
                self.window.push_back_reserved(entry);
                Ok(())
            }
            None => {
                self.idle.push_reserved(context);
                Err(AllocError)
            }
        }
    }
}
