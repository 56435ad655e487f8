ghost use Rattle.std.specs.Prelude.{◌≡◌, IfOk, IfErr};
ghost use Rattle.mg_node.specs.Job.{LoggedJob};
ghost use Rattle.mg_node.specs.Lawful.{LawfulWork, LawfulPerformed};
ghost use Rattle.mg_node.specs.Running.{SomeJobHas, IsPerformed};

use crate::{Performed, Work};
use mg_calc::{CalcFault, NodeCalculator};
use mg_edge::Gate;
use std::alloc::Global;

/// Does a work: its calculator is shown the set, called by its number, or closed. The gate is entered before and left after each call but
/// Close. Out of memory: the work comes back as it was.
pub fn perform<C: NodeCalculator, G: Gate>(
    alloc: Global,
    work: Work<C>,
    gate: &G,
) -> Result<Performed<C>, Work<C>>
    requires { SomeJobHas C.laws work }
    ensures performed { IfOk result (λ p. IsPerformed C.laws work p) }
    ensures unchanged { IfErr result (λ w. w ≡ work) }

    // Lawful in, lawful out, for every job.
    ensures lawful { (job : LoggedJob C.laws) → LawfulWork job work → IfOk result (λ p. LawfulPerformed job p) }
{
    let mut work = work;
    match work.run(alloc, gate) {
        Ok(emission) => Ok(Performed::new(work, Ok(emission))),
        Err(CalcFault::Fault(cause)) => Ok(Performed::new(work, Err(cause))),
        Err(CalcFault::OutOfMemory) => Err(work),
    }
}
