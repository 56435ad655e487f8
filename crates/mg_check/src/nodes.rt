ghost use Rattle.std.specs.Prelude.{◌≡◌, ℕ, List, IfOk};
ghost use Rattle.mg_check.specs.DraftView.{draft_view, drafts_view};
ghost use Rattle.mg_check.specs.Planning as planning;
ghost use Rattle.mg_check.specs.Code.Numbered.{AreNumbers};

use crate::counting::{count_of, range_of};
use crate::draft::Draft;
use crate::names::{Names, numbers_of};
use mg_calc::{PlanNode, PlanNodeList};
use mg_value::{BlockList, NumberList};
use std::alloc::{AllocError, Global};

/// The numbers of the streams and side packets at the ports of a node.
#[derive(Drop)]
struct Numbers {
    inputs: NumberList,
    outputs: NumberList,
    sides: NumberList,
}

fn numbers_at(
    alloc: Global,
    streams: &Names,
    sides: &Names,
    first: u32,
    draft: &Draft,
) -> Result<Numbers, AllocError>
    ensures { IfOk result (λ numbers. AreNumbers numbers streams.now sides.now first (draft_view draft.now)) }
{
    let count = count_of(draft.outputs.as_slice())?;
    let inputs = numbers_of(alloc, streams, draft.inputs.as_slice())?;
    let outputs = range_of(alloc, first, count)?;
    let sides = numbers_of(alloc, sides, draft.sides.as_slice())?;
    Ok(Numbers {
        inputs,
        outputs,
        sides,
    })
}

fn node_with(draft: Draft, numbers: Numbers) -> PlanNode
    ensures { (streams sides : List (List ℕ)) (first : ℕ) → AreNumbers numbers streams sides first (draft_view draft.entry) → result ≡ planning.plan_node streams sides first (draft_view draft.entry) }
{
    PlanNode {
        label: draft.label,
        law: draft.law,
        shape: draft.shape,
        inputs: numbers.inputs,
        outputs: numbers.outputs,
        sides: numbers.sides,
        in_flight: draft.in_flight,
        box_number: draft.box_number,
        policy: draft.policy,
    }
}

fn node_of(
    alloc: Global,
    streams: &Names,
    sides: &Names,
    first: u32,
    draft: Draft,
) -> Result<PlanNode, AllocError>
    ensures { IfOk result (λ node. node ≡ planning.plan_node streams.now sides.now first (draft_view draft.entry)) }
{
    let numbers = numbers_at(alloc, streams, sides, first, &draft)?;
    Ok(node_with(draft, numbers))
}

/// Returns the nodes of a plan. Their outputs, in order, are the streams from the number `first` on.
pub(crate) fn nodes_of(
    alloc: Global,
    streams: &Names,
    sides: &Names,
    first: u32,
    drafts: Vec<Draft>,
) -> Result<PlanNodeList, AllocError>
    ensures { IfOk result (λ nodes. nodes ≡ planning.plan_nodes streams.now sides.now first (drafts_view drafts.entry.items)) }
{
    let mut nodes = Vec::new(alloc);
    let mut next = first;
    for draft in drafts {
        let count = count_of(draft.outputs.as_slice())?;
        nodes.push(node_of(alloc, streams, sides, next, draft)?)?;
        let Some(end) = next.checked_add(count) else {
            return Err(AllocError);
        };
        next = end;
    }
    Ok(BlockList::from_vec(nodes)?)
}
