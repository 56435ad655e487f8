//! How the nodes of a net are begun.
ghost use Rattle.std.specs.Prelude.{◌≡◌, ◌<◌, ◌+◌, length, slice_get, Some, OnOk, IfOk};
ghost use Rattle.mg_calc.specs.declared.plan_node.PlanNode.{PlanNode};
ghost use Rattle.mg_calc.specs.Plan.{node_sides};
ghost use Rattle.mg_node.specs.Job.{LoggedJob};
ghost use Rattle.mg_sched.specs.StandsFor.{StandsFor, StandsForSome, IsRunning};
ghost use Rattle.mg_sched.specs.Begins.{BeginsNet};

use super::Net;
use mg_calc::{GivenList, NodeCalculator, Plan, node_sides};
use std::alloc::{AllocError, Global};

// Returns the side packets of a node, by its number.
fn sides_at(
    alloc: Global,
    plan: &Plan,
    given: &GivenList,
    node: u32,
) -> Result<GivenList, AllocError>
    requires { node < length plan.now.nodes }
    ensures { (planned : PlanNode) → slice_get plan.now.nodes node ≡ Some planned → IfOk result (λ sides. sides ≡ node_sides plan.now given.now planned) }
{
    node_sides(alloc, plan, given, &plan.nodes.as_slice()[node as usize])
}

impl<C: NodeCalculator> Net<C> {
    /// Begins each node that isn't begun, in order. It opens the node's calculator with the node's side packets, and lays what the
    /// calculator emits. Out of memory: the nodes begun so far stay begun, and this may be called again.
    pub fn begin(&mut self) -> Result<(), AllocError>
        requires stands { StandsForSome C.laws self.old }
        ensures running { OnOk result (IsRunning self.new) }
        ensures begins { BeginsNet C.laws self.old self.new }
        ensures stands { (job : LoggedJob C.laws) → StandsFor job self.old → StandsFor job self.new }
    {
        while self.begun < self.plan.nodes.len() {
            self.begin_next()?;
        }
        Ok(())
    }

    // Begins the next node.
    fn begin_next(&mut self) -> Result<(), AllocError>
        requires there { self.old.begun < length self.old.plan.nodes }
        requires stands { StandsForSome C.laws self.old }
        ensures begins { BeginsNet C.laws self.old self.new }
        ensures next { OnOk result (self.new.begun ≡ self.old.begun + 1) }
        ensures stands { (job : LoggedJob C.laws) → StandsFor job self.old → StandsFor job self.new }
    {
        self.known = false;
        let node = self.begun;
        let sides = sides_at(self.alloc, &self.plan, &self.given, node)?;
        self.engines[node as usize].begin(&sides)?;
        self.begun += 1;
        self.stop_ended(node);
        Ok(())
    }
}
