ghost use Rattle.std.specs.Prelude.{◌≡◌, IfNone};
ghost use Rattle.mg_calc.specs.Plan.{IsValid, IsValidWithFree};
ghost use Rattle.mg_free.specs.Core.{free_law_of, is_free as the_free, first_free as the_first};

use crate::FreeLaw;
use mg_calc::{Law, Plan, PlanNode};

/// Returns the free law of a law, if nodes of that law are free.
pub(crate) fn free_law(law: &Law) -> Option<FreeLaw>
    ensures { result ≡ free_law_of law.now }
{
    match law {
        Law::FirstCome { lanes } => Some(FreeLaw::FirstCome { lanes: *lanes }),
        Law::Limiter { most } => Some(FreeLaw::Limiter { most: *most }),
        _ => None,
    }
}

/// Whether a node is free: its output depends on the order in which packets arrive.
pub fn is_free(node: &PlanNode) -> bool
    ensures { result ≡ the_free node.now }
{
    free_law(&node.law).is_some()
}

/// Returns the number of a plan's first free node, if it has one. A plan that is valid but for free nodes, and has none, is valid.
pub fn first_free(plan: &Plan) -> Option<u32>
    ensures first { result ≡ the_first plan.now }
    ensures valid { IsValidWithFree plan.now → IfNone result (IsValid plan.now) }
{
    let nodes = plan.nodes.as_slice();
    for number in 0..plan.nodes.len() {
        if is_free(&nodes[number as usize]) {
            return Some(number);
        }
    }
    None
}
