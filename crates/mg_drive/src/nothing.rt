//! A net of no node, which stands in the place of a net while workers have that net.
ghost use Rattle.std.specs.Prelude.{◌≡◌, []};
ghost use Rattle.mg_drive.specs.Code.Nothing.{no_plan, no_inputs};

use mg_calc::{GivenList, Inputs, NodeCalculator, Plan};
use mg_sched::Net;
use mg_value::BlockList;
use std::alloc::{AllocError, Global};

// Returns a list without entries.
fn none<T: Drop>(alloc: Global) -> BlockList<T>
    ensures { result ≡ [] }
{
    match BlockList::from_vec(Vec::new(alloc)) {
        Ok(list) => list,
        Err(_) => unreachable!(),
    }
}

fn no_sides(alloc: Global) -> GivenList
    ensures { result ≡ [] }
{
    match GivenList::from_vec(Vec::new(alloc)) {
        Ok(list) => list,
        Err(_) => unreachable!(),
    }
}

fn plan_of_nothing(alloc: Global) -> Plan
    ensures { result ≡ no_plan }
{
    Plan {
        nodes: none(alloc),
        streams: none(alloc),
        edges: none(alloc),
        order: none(alloc),
        inputs: none(alloc),
        outputs: none(alloc),
        sides: none(alloc),
        limit: -1,
        workers: 0,
    }
}

fn inputs_of_nothing(alloc: Global) -> Inputs
    ensures { result ≡ no_inputs }
{
    Inputs {
        streams: none(alloc),
        sides: no_sides(alloc),
        ended: true,
    }
}

/// Returns a net of no node.
pub(crate) fn net_of_nothing<C: NodeCalculator>(alloc: Global) -> Result<Net<C>, AllocError> {
    let plan = plan_of_nothing(alloc);
    let inputs = inputs_of_nothing(alloc);
    match Net::new(alloc, &plan, &inputs, Vec::new(alloc)) {
        Ok(net) => Ok(net),
        Err(_) => Err(AllocError),
    }
}
