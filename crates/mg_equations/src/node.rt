//! What has become of a node before its first round, by its law.
ghost use Rattle.std.specs.Prelude.{◌≡◌, length, IfOk};
ghost use Rattle.mg_calc.specs.Outcome.{source_outcome as the_source_outcome};
ghost use Rattle.mg_calc.specs.Shape.{IsServed, calls_of};
ghost use Rattle.mg_calc.specs.Law.{table_rules};
ghost use Rattle.mg_calc.specs.Plan.{node_sides as the_sides};
ghost use Rattle.mg_equations.specs.Code.Seen.{seen};
ghost use Rattle.mg_equations.specs.Code.Begun.{begun_by};

use crate::outcome::Outcome;
use mg_calc::{GivenList, Inputs, Law, Plan, PlanNode, node_sides};
use std::alloc::{AllocError, Global};

/// Returns what becomes of a source, which is called as often as its law says.
fn source_outcome(alloc: Global, node: &PlanNode, sides: &GivenList) -> Result<Outcome, AllocError>
    requires { IsServed node.now.law }
    ensures { IfOk result (λ outcome. seen outcome ≡ the_source_outcome (table_rules node.now.law) node.now.law (calls_of node.now.law) (length node.now.outputs) sides.now) }
{
    let mut outcome = Outcome::opened(alloc, &node.law, None, node.outputs.len(), sides)?;
    for number in 0..call_count(&node.law) {
        outcome.call(alloc, &node.law, number)?;
    }
    outcome.close();
    Ok(outcome)
}

// Returns how many calls a source gets.
fn call_count(law: &Law) -> u64
    ensures { result ≡ calls_of law.now }
{
    match law {
        Law::Count { count, .. } => u64::from(*count),
        Law::SideOnce { .. } => 1,
        _ => 0,
    }
}

/// Returns what has become of a node before it reads a packet, by its law. A source has been called and closed, a loopback has
/// answered nothing, and every other node is opened.
pub fn begun(
    alloc: Global,
    plan: &Plan,
    inputs: &Inputs,
    node: &PlanNode,
) -> Result<Outcome, AllocError>
    requires { IsServed node.now.law }
    ensures { IfOk result (λ outcome. seen outcome ≡ begun_by node.now.law (the_sides plan.now inputs.now.sides node.now) node.now) }
{
    let sides = node_sides(alloc, plan, &inputs.sides, node)?;
    match &node.law {
        Law::Count { .. } | Law::SideOnce { .. } | Law::Constants => {
            source_outcome(alloc, node, &sides)
        }
        Law::Loopback => Outcome::before_open(alloc, 1),
        _ => {
            let offset = node.shape.offset;
            Outcome::opened(alloc, &node.law, offset, node.outputs.len(), &sides)
        }
    }
}
