ghost use Rattle.std.specs.Prelude.{◌≡◌, ◌≢◌, ◌≤◌, Ok, Err, IfOk, IfErr, All, length};
ghost use Rattle.mg_config.specs.Config.{graph_view};
ghost use Rattle.mg_calc.specs.Plan.{IsValidWithFree, OutersFit};
ghost use Rattle.mg_check.specs.Check.{check_of, IsOuterShape};

use crate::drafting::drafts_of;
use crate::fault::CheckFault;
use crate::planning::plan_with;
use mg_calc::{OuterShape, Plan};
use mg_config::GraphConfig;
use std::alloc::Global;

/// Returns the plan of an expanded graph with the user-supplied calculators, or its first refusal (MediaPipe,
/// Graphs). The check looks for causes in the order of `CheckFault`. Of one cause it names the first node, stream or
/// side packet, in the order of their numbers. Streams and side packets without a producer come in the order of their
/// readers.
pub fn check(alloc: Global, config: &GraphConfig, outers: &[OuterShape]) -> Result<Plan, CheckFault>
    // An expanded graph has at most 4,096 nodes. Each user-supplied calculator that may have its law has that law's
    // shape, and parameters in their ranges.
    requires few { length config.now.nodes ≤ 4096 }
    requires outers { All IsOuterShape outers.now }

    ensures ok { IfOk result (λ plan. check_of outers.now (graph_view config.now) ≡ Ok plan) }
    ensures err { IfErr result (λ fault. fault ≢ CheckFault.OutOfMemory → check_of outers.now (graph_view config.now) ≡ Err fault) }

    // A plan is valid, but may have free nodes, and the user-supplied calculators fit it.
    ensures valid { IfOk result IsValidWithFree }
    ensures fit { IfOk result (λ plan. OutersFit plan outers.now) }
{
    let drafts = drafts_of(alloc, config.nodes.as_slice(), outers)?;
    let plan = plan_with(alloc, config, drafts)?;
    Ok(plan)
}
