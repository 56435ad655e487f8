ghost use Rattle.std.specs.Prelude.{◌≡◌, ◌++◌, ◌∷◌, [], IfOk, OnOk};
ghost use Rattle.mg_calc.specs.SideView.{side_value};
ghost use Rattle.mg_config.specs.Config.{graph_view};
ghost use Rattle.mg_subgraph.specs.Refusals.{port_names};
ghost use Rattle.mg_check.specs.DraftView.{draft_view, drafts_view};
ghost use Rattle.mg_check.specs.Planning as planning;
ghost use Rattle.mg_check.specs.Code.Streams.{given_from};

use crate::draft::Draft;
use mg_calc::{Side, SideList, SideValue};
use mg_config::GraphConfig;
use mg_names::PortMap;
use mg_value::{BlockList, MgText};
use std::alloc::{AllocError, Global};

fn add_side(
    alloc: Global,
    out: &mut Vec<Side>,
    name: &str,
    value: SideValue,
) -> Result<(), AllocError>
    ensures { OnOk result (out.new.items ≡ out.old.items ++ record { name = name.now; value = side_value value } ∷ []) }
{
    let name = MgText::new(alloc, name)?;
    out.push(Side { name, value })?;
    Ok(())
}

fn add_given(alloc: Global, out: &mut Vec<Side>, ports: &PortMap) -> Result<(), AllocError>
    ensures { OnOk result (out.new.items ≡ out.old.items ++ given_from 0 (port_names ports.now)) }
{
    for place in 0..ports.len() {
        let Some(port) = ports.get(place) else {
            unreachable!()
        };
        add_side(alloc, out, port.name.as_str(), SideValue::Given(place))?;
    }
    Ok(())
}

fn add_fixed(alloc: Global, out: &mut Vec<Side>, draft: &Draft) -> Result<(), AllocError>
    ensures { OnOk result (out.new.items ≡ out.old.items ++ planning.fixed_sides (draft_view draft.now)) }
{
    let names = draft.side_outputs.as_slice();
    let constants = draft.constants.as_slice();
    for place in 0..names.len().min(constants.len()) {
        let name = &names[place];
        let payload = &constants[place];
        add_side(alloc, out, *name, SideValue::Fixed(payload.clone()?))?;
    }
    Ok(())
}

/// Returns the side packets of a plan: the graph's input side packets, and then those that nodes write.
pub(crate) fn sides_of(
    alloc: Global,
    graph: &GraphConfig,
    drafts: &[Draft],
) -> Result<SideList, AllocError>
    ensures { IfOk result (λ sides. sides ≡ planning.plan_sides (graph_view graph.now) (drafts_view drafts.now)) }
{
    let mut sides = Vec::new(alloc);
    add_given(alloc, &mut sides, &graph.input_sides)?;
    for draft in drafts {
        add_fixed(alloc, &mut sides, draft)?;
    }
    Ok(BlockList::from_vec(sides)?)
}
