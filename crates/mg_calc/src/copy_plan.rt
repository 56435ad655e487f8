//! Copies of plans and of their parts. A copy shares the payloads of the side packets.
ghost use Rattle.std.specs.Prelude.{◌≡◌, IfOk};
ghost use Rattle.mg_calc.specs.SideView.{side_value};

use crate::{Edge, Plan, PlanNode, PlanStream, Side, SideValue, TryClone};
use std::alloc::{AllocError, Global};
use std::sync::Arc;

impl TryClone for u32 {
    fn try_clone(&self, _alloc: Global) -> Result<u32, AllocError> {
        Ok(*self)
    }
}

impl TryClone for Edge {
    fn try_clone(&self, _alloc: Global) -> Result<Edge, AllocError> {
        Ok(*self)
    }
}

fn side_again(value: &SideValue) -> Result<SideValue, AllocError>
    ensures { IfOk result (λ copy. side_value copy ≡ side_value value.now) }
{
    match value {
        SideValue::Given(place) => Ok(SideValue::Given(*place)),
        SideValue::Fixed(payload) => Ok(SideValue::Fixed(Arc::try_clone(payload)?)),
    }
}

impl TryClone for Side {
    fn try_clone(&self, alloc: Global) -> Result<Side, AllocError> {
        let name = self.name.try_clone(alloc)?;
        let value = side_again(&self.value)?;
        Ok(Side { name, value })
    }
}

impl TryClone for PlanStream {
    fn try_clone(&self, alloc: Global) -> Result<PlanStream, AllocError> {
        let name = self.name.try_clone(alloc)?;
        Ok(PlanStream {
            name,
            kind: self.kind,
            producer: self.producer,
        })
    }
}

impl TryClone for PlanNode {
    fn try_clone(&self, alloc: Global) -> Result<PlanNode, AllocError> {
        let label = self.label.try_clone(alloc)?;
        let law = self.law.try_clone(alloc)?;
        let shape = self.shape.try_clone(alloc)?;
        let inputs = self.inputs.try_clone(alloc)?;
        let outputs = self.outputs.try_clone(alloc)?;
        let sides = self.sides.try_clone(alloc)?;
        Ok(PlanNode {
            label,
            law,
            shape,
            inputs,
            outputs,
            sides,
            in_flight: self.in_flight,
            box_number: self.box_number,
            policy: self.policy,
        })
    }
}

impl TryClone for Plan {
    fn try_clone(&self, alloc: Global) -> Result<Plan, AllocError> {
        let nodes = self.nodes.try_clone(alloc)?;
        let streams = self.streams.try_clone(alloc)?;
        let edges = self.edges.try_clone(alloc)?;
        let order = self.order.try_clone(alloc)?;
        let inputs = self.inputs.try_clone(alloc)?;
        let outputs = self.outputs.try_clone(alloc)?;
        let sides = self.sides.try_clone(alloc)?;
        Ok(Plan {
            nodes,
            streams,
            edges,
            order,
            inputs,
            outputs,
            sides,
            limit: self.limit,
            workers: self.workers,
        })
    }
}
