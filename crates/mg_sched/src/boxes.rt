//! How user-supplied calculators get to their nodes. Nothing here takes memory.
ghost use Rattle.std.specs.Prelude.{◌≡◌, ◌+◌, ◌<◌, ◌≤◌, ◌++◌, ℕ, List, Some, None, true, All, IsSome, IsSomeAnd, length, map, option_map, slice_get, slice_set, vec_len, vec_capacity};
ghost use Rattle.mg_value.specs.Payload.{Plain};
ghost use Rattle.mg_settled.specs.Prefix.{StreamPrefix};
ghost use Rattle.mg_calc.specs.declared.plan_node.PlanNode.{PlanNode};
ghost use Rattle.mg_calc.specs.Plan.{IsValid};
ghost use Rattle.mg_calc.specs.Told.{BoxTold};
ghost use Rattle.mg_route.specs.HolderView.{HolderView, holder_view};
ghost use Rattle.mg_node.specs.Fresh.{own_told, fresh_engine};
ghost use Rattle.mg_sched.specs.Code.Made.{AtPlaces, IsEngineAt, IsLeftOver, FindEach, first_holder};

use mg_calc::{NodeCalculator, Plan};
use mg_node::Engine;

/// Moves the user-supplied calculators, in their order, to the end of a list of places.
pub(crate) fn lay_out<C>(boxes: &mut Vec<C>, places: &mut Vec<Option<C>>)
    requires room { vec_len places.old + vec_len boxes.old ≤ vec_capacity places.old }
    ensures items { places.new.items ≡ places.old.items ++ map Some boxes.old.items }
    ensures len { vec_len places.new ≡ vec_len places.old + vec_len boxes.old }
    ensures empty { vec_len boxes.new ≡ 0 }
    ensures kept { vec_capacity boxes.new ≡ vec_capacity boxes.old }
{
    boxes.reverse();
    while let Some(calculator) = boxes.pop() {
        places.push_reserved(Some(calculator));
    }
}

// Hands the calculator of a place to an engine.
fn hand_over<C: NodeCalculator>(places: &mut [Option<C>], number: u32, engine: &mut Engine<C>)
    requires number { number < length places.old }
    requires there { IsSomeAnd (slice_get places.old number) (λ p. IsSome p) }
    ensures engine { (node : PlanNode) (place : ℕ) (told : HolderView) (calculator : BoxTold) → engine.old ≡ fresh_engine node place told
        → slice_get (map (option_map C.told) places.old) number ≡ Some (Some calculator) → engine.new ≡ fresh_engine node place (holder_view true calculator) }
    ensures taken { map (option_map C.told) places.new ≡ slice_set (map (option_map C.told) places.old) number None }
{
    let Some(calculator) = places[number as usize].take() else {
        unreachable!()
    };
    engine.hand_in(calculator);
}

/// Hands each node that has a box number the calculator of that number.
pub(crate) fn hand_out<C: NodeCalculator>(
    plan: &Plan,
    places: &mut [Option<C>],
    engines: &mut [Engine<C>],
)
    requires valid { IsValid plan.now }
    requires engines { length plan.now.nodes ≤ length engines.old }
    requires full { All (λ p. IsSome p) places.old }
    requires find { FindEach plan.now.nodes (map (option_map C.told) places.old) }
    ensures count { length engines.new ≡ length engines.old }
    ensures engines { (streams : List (StreamPrefix Plain)) → AtPlaces (IsEngineAt plan.now streams (λ _ node. own_told node)) engines.old
        → AtPlaces (IsEngineAt plan.now streams (λ _ node. first_holder (map (option_map C.told) places.old) node)) engines.new }
    ensures left { IsLeftOver plan.now.nodes (map (option_map C.told) places.old) (length plan.now.nodes) (map (option_map C.told) places.new) }
{
    for node in 0..plan.nodes.len() {
        let planned = &plan.nodes.as_slice()[node as usize];
        let Some(number) = planned.box_number else {
            continue;
        };
        hand_over(places, number, &mut engines[node as usize]);
    }
}
