//! How user-supplied calculators leave a net. Nothing here takes memory.
ghost use Rattle.std.specs.Prelude.{◌≡◌, ℕ, ◌+◌, ◌≤◌, ◌++◌, true, is_some, Option, Some, length, map, option_map, slice_get, vec_len, vec_capacity};
ghost use Rattle.std.specs.List.{filter_map};
ghost use Rattle.mg_calc.specs.declared.plan_node.PlanNode.{PlanNode};
ghost use Rattle.mg_calc.specs.Told.{BoxTold};
ghost use Rattle.mg_node.specs.Views.{EngineView};
ghost use Rattle.mg_node.specs.Job.{LoggedJob};
ghost use Rattle.mg_sched.specs.Views.{WorkQueueView};
ghost use Rattle.mg_sched.specs.GivesBack.{cell_told, with_told, with_cells, given_back, StoodFor};

use super::Net;
use crate::work_queue::WorkQueue;
use mg_calc::{NodeCalculator, Plan};
use mg_node::Engine;

// Returns the calculator of a cell, if it is user-supplied.
fn calculator_of<C: NodeCalculator>(engine: Engine<C>, work_queue: WorkQueue<C>) -> Option<C>
    ensures { option_map C.told result ≡ cell_told engine work_queue }
{
    match engine.into_calculator() {
        Some(calculator) => Some(calculator),
        None => work_queue.into_calculator(),
    }
}

// Lays a calculator into the place of its number, if there is one.
#[tactic(auto, using(crate::proofs::HandedOut::map_set))]
fn put_in_place<C: NodeCalculator>(
    places: &mut [Option<C>],
    number: Option<u32>,
    calculator: Option<C>,
)
    ensures { map (option_map C.told) places.new ≡ with_told (map (option_map C.told) places.old) number (option_map C.told calculator) }
{
    let Some(number) = number else { return };
    let Some(calculator) = calculator else { return };
    if (number as usize) < places.len() {
        places[number as usize] = Some(calculator);
    }
}

// Lays the calculators of cells into the places of their nodes' numbers.
fn put_back<C: NodeCalculator>(
    plan: &Plan,
    engines: Vec<Engine<C>>,
    work_queues: Vec<WorkQueue<C>>,
    places: &mut [Option<C>],
)
    ensures { map (option_map C.told) places.new ≡ with_cells (map (option_map C.told) places.old) plan.now.nodes engines.items work_queues.items }
{
    let mut engines = engines.into_iter();
    let mut work_queues = work_queues.into_iter();
    for node in 0..plan.nodes.len() {
        let number = plan.nodes.as_slice()[node as usize].box_number;
        let Some(engine) = engines.next() else { return };
        let Some(work_queue) = work_queues.next() else {
            return;
        };
        put_in_place(places, number, calculator_of(engine, work_queue));
    }
}

// Appends the calculators that lie in places, in order, to a list with room for them.
fn all_in<C: NodeCalculator>(places: Vec<Option<C>>, boxes: Vec<C>) -> Vec<C>
    requires room { vec_len boxes + length places.items ≤ vec_capacity boxes }
    ensures { map C.told result.items ≡ map C.told boxes.items ++ filter_map (λ (p : Option BoxTold). p) (map (option_map C.told) places.items) }
{
    let mut boxes = boxes;
    for place in places {
        let Some(calculator) = place else { continue };
        boxes.push_reserved(calculator);
    }
    boxes
}

impl<C: NodeCalculator> Net<C> {
    /// Returns all user-supplied calculators, in the order in which they came. These are the calculators of nodes, and those that no node
    /// uses.
    pub fn give_back(self) -> Vec<C>
        ensures told { map C.told result.items ≡ given_back self }

        // A net that stands for a job, begun or not, or was wound up since, gives back as many calculators as the user supplied. The
        // calculator of a node stands at the place of its box number. A calculator that no node uses is as it lay.
        ensures count { (job : LoggedJob C.laws) → StoodFor job self → length result.items ≡ length job.boxes }
        ensures own { (job : LoggedJob C.laws) (number place : ℕ) (node : PlanNode) (engine : EngineView) (work_queue : WorkQueueView) → StoodFor job self
            → slice_get self.plan.nodes number ≡ Some node → node.box_number ≡ Some place → slice_get self.engines number ≡ Some engine → slice_get self.work_queues number ≡ Some work_queue
            → (slice_get (map C.told result.items) place ≡ cell_told engine work_queue) × (is_some (cell_told engine work_queue) ≡ true) }
        ensures unused { (job : LoggedJob C.laws) (place : ℕ) (told : BoxTold) → StoodFor job self → slice_get self.spare place ≡ Some (Some told)
            → slice_get (map C.told result.items) place ≡ Some told }
    {
        let Net {
            plan,
            engines,
            work_queues,
            mut spare,
            boxes,
            ..
        } = self;
        put_back(&plan, engines, work_queues, &mut spare);
        all_in(spare, boxes)
    }
}
