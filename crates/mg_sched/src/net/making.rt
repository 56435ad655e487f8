//! How a net is made.
ghost use Rattle.std.specs.Prelude.{◌≡◌, ◌≤◌, [], zero, length, map, IfOk, IfErr, vec_len, vec_capacity};
ghost use Rattle.mg_calc.specs.declared.inputs.Inputs.{Inputs};
ghost use Rattle.mg_calc.specs.Plan.{IsValid};
ghost use Rattle.mg_calc.specs.Equations.{IsJob};
ghost use Rattle.mg_node.specs.Fresh.{own_told};
ghost use Rattle.mg_sched.specs.Code.Made.{HasParts};
ghost use Rattle.mg_sched.specs.Code.Tables.{AreTables};
ghost use Rattle.mg_sched.specs.Made.{BoxesFit, IsMade};

use super::Net;
use crate::boxes::{hand_out, lay_out};
use crate::parts::{Cells, Kept, Rules, cells_of, kept_of, rules_of};
use mg_calc::{Inputs, NodeCalculator, Plan};
use std::alloc::{AllocError, Global};

/// All that a net keeps and for which it takes memory. Each node has a calculator of its own kind.
#[derive(Drop)]
struct Parts<C: NodeCalculator> {
    kept: Kept<C>,
    cells: Cells<C>,
    rules: Rules,
}

// Returns the parts of a net, with room for `count` user-supplied calculators.
fn parts_of<C: NodeCalculator>(
    alloc: Global,
    plan: &Plan,
    inputs: &Inputs,
    count: usize,
) -> Result<Parts<C>, AllocError>
    requires { IsJob (record { plan = plan.now; inputs = inputs.now; laws = C.laws }) }
    ensures parts { IfOk result (λ p. HasParts plan.now inputs.now (λ _ node. own_told node) (record {
      plan = p.kept.plan;
      given = p.kept.given;
      engines = p.cells.engines.items;
      intakes = p.cells.intakes.items;
      work_queues = p.cells.work_queues.items;
      limits = p.rules.limits;
      spare = [];
      kept = p.rules.kept.items;
      begun = zero;
      wound = zero;
    })) }
    ensures tables { IfOk result (λ p. AreTables p.kept.plan p.rules.first_edges.items p.rules.own_feeders.items) }
    ensures got { IfOk result (λ p. vec_len p.rules.got ≡ length p.kept.plan.streams) }
    ensures none { IfOk result (λ p. p.kept.places.items ≡ []) }
    ensures empty { IfOk result (λ p. vec_len p.kept.places ≡ 0) }
    ensures room { IfOk result (λ p. count ≤ vec_capacity p.kept.places) }
{
    let kept = kept_of(alloc, plan, &inputs.sides, count)?;
    let cells = cells_of(alloc, plan, &inputs.streams)?;
    let rules = rules_of(alloc, plan)?;
    Ok(Parts { kept, cells, rules })
}

// Returns the net of these parts, with the user-supplied calculators at their nodes. No memory is taken.
fn joined<C: NodeCalculator>(alloc: Global, plan: &Plan, parts: Parts<C>, boxes: Vec<C>) -> Net<C>
    requires valid { IsValid plan.now }
    requires boxes { BoxesFit plan.now (map C.told boxes.items) }
    requires nodes { length plan.now.nodes ≤ length parts.cells.engines.items }
    requires tables { AreTables parts.kept.plan parts.rules.first_edges.items parts.rules.own_feeders.items }
    requires got { vec_len parts.rules.got ≡ length parts.kept.plan.streams }
    requires none { parts.kept.places.items ≡ [] }
    requires empty { vec_len parts.kept.places ≡ 0 }
    requires room { vec_len boxes ≤ vec_capacity parts.kept.places }
    ensures { (inputs : Inputs) → IsJob (record { plan = plan.now; inputs = inputs; laws = C.laws }) → HasParts plan.now inputs (λ _ node. own_told node) (record {
      plan = parts.kept.plan;
      given = parts.kept.given;
      engines = parts.cells.engines.items;
      intakes = parts.cells.intakes.items;
      work_queues = parts.cells.work_queues.items;
      limits = parts.rules.limits;
      spare = [];
      kept = parts.rules.kept.items;
      begun = zero;
      wound = zero;
    }) → IsMade C.laws plan.now inputs (map C.told boxes.items) result }
{
    let Parts { kept, cells, rules } = parts;
    let Kept {
        plan: own_plan,
        given,
        mut places,
    } = kept;
    let Cells {
        mut engines,
        intakes,
        work_queues,
    } = cells;
    let Rules {
        limits,
        first_edges,
        own_feeders,
        got,
        kept,
    } = rules;
    let mut boxes = boxes;
    lay_out(&mut boxes, &mut places);
    hand_out(plan, &mut places, &mut engines);
    Net {
        alloc,
        plan: own_plan,
        given,
        engines,
        intakes,
        work_queues,
        limits,
        first_edges,
        own_feeders,
        got,
        kept,
        spare: places,
        boxes,
        begun: 0,
        wound: 0,
        agenda: None,
        known: false,
    }
}

impl<C: NodeCalculator> Net<C> {
    /// Makes the net of a plan over inputs, with user-supplied calculators. A node with a box number gets the calculator of that number. No
    /// node is begun. Out of memory: hands the calculators back.
    pub fn new(alloc: Global, plan: &Plan, inputs: &Inputs, boxes: Vec<C>) -> Result<Net<C>, Vec<C>>
        requires job { IsJob (record { plan = plan.now; inputs = inputs.now; laws = C.laws }) }
        requires boxes { BoxesFit plan.now (map C.told boxes.items) }
        ensures made { IfOk result (λ n. IsMade C.laws plan.now inputs.now (map C.told boxes.items) n) }
        ensures returned { IfErr result (λ bs. bs ≡ boxes) }
    {
        match parts_of(alloc, plan, inputs, boxes.len()) {
            Ok(parts) => Ok(joined(alloc, plan, parts, boxes)),
            Err(_) => Err(boxes),
        }
    }
}
