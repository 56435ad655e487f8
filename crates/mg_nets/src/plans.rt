//! Plans of graphs that are written as texts.
ghost use Rattle.std.specs.Prelude.{IfOk};
ghost use Rattle.mg_calc.specs.Plan.{IsValid, OutersFit};
ghost use Rattle.mg_nets.specs.Handed.{two_outers};

use crate::boxes::outers;
use mg_calc::Plan;
use std::alloc::Global;
use std::test::Fail;

/// Returns the plan of a graph with two user-supplied calculators.
pub fn plan_of(alloc: Global, text: &str) -> Result<Plan, Fail>
    ensures valid { IfOk result IsValid }
    ensures fit { IfOk result (λ plan. OutersFit plan two_outers) }
{
    let outers = outers(alloc)?;
    mg_plans::plan_of(alloc, text, outers.as_slice())
}
