//! Nodes whose laws are stated: their calculators are of their authors' own.
ghost use Rattle.std.specs.Prelude.{◌≡◌, All, IfNone};
ghost use Rattle.mg_calc.specs.Shape.{IsStated};
ghost use Rattle.mg_run.specs.Answer as answers;

use mg_calc::{Law, Plan};

// Whether a law is stated.
fn is_stated(law: &Law) -> bool
    ensures { result ≡ answers.is_stated law.now }
{
    matches!(law, Law::Stated { .. })
}

/// Returns the number of a plan's first node whose law is stated, if it has one. If there is no such node, no node's law is stated.
pub fn first_stated(plan: &Plan) -> Option<u32>
    ensures first { result ≡ answers.first_stated plan.now }
    ensures unstated { IfNone result (All (λ node. IsStated node.law → ⊥) plan.now.nodes) }
{
    let nodes = plan.nodes.as_slice();
    for number in 0..plan.nodes.len() {
        if is_stated(&nodes[number as usize].law) {
            return Some(number);
        }
    }
    None
}
