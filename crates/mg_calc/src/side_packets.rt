//! The side packets that a node gets.
ghost use Rattle.std.specs.Prelude.{◌≡◌, IfOk};
ghost use Rattle.mg_calc.specs.Given.{given};
ghost use Rattle.mg_calc.specs.Plan.{node_sides as the_node_sides, side_packet as the_side_packet};
ghost use Rattle.mg_calc.specs.SideView.{side_value};

use crate::{GivenList, Plan, PlanNode, SideValue};
use mg_value::Payload;
use std::alloc::{AllocError, Global};
use std::sync::Arc;

// Returns the payload of a side packet, or none if the caller has to give it and it is missing.
fn side_packet(handed_in: &GivenList, side: &SideValue) -> Result<Option<Arc<Payload>>, AllocError>
    ensures { IfOk result (λ packet. given packet ≡ the_side_packet handed_in.now (side_value side.now)) }
{
    match side {
        SideValue::Given(place) => match handed_in.get(*place) {
            Some(Some(payload)) => Ok(Some(Arc::try_clone(payload)?)),
            _ => Ok(None),
        },
        SideValue::Fixed(payload) => Ok(Some(Arc::try_clone(payload)?)),
    }
}

/// Returns the side packets of a node, one for each of its side ports (MediaPipe, Packets: side packets). A side packet stands in the
/// graph, or the caller gives it, and then it may be missing. Their payloads are shared.
pub fn node_sides(
    alloc: Global,
    plan: &Plan,
    handed_in: &GivenList,
    node: &PlanNode,
) -> Result<GivenList, AllocError>
    ensures { IfOk result (λ sides. sides ≡ the_node_sides plan.now handed_in.now node.now) }
{
    let mut sides = Vec::with_capacity(alloc, node.sides.len() as usize)?;
    for number in node.sides.as_slice() {
        let side = match plan.sides.get(*number) {
            Some(side) => side_packet(handed_in, &side.value)?,
            None => None,
        };
        sides.push(side)?;
    }
    Ok(GivenList::from_vec(sides)?)
}
