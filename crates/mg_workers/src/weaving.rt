//! How the engines and the intakes of a net become parts in the order of their words, each in a box of its own.
ghost use Rattle.std.specs.Prelude.{◌≡◌, ◌+◌, ◌*◌, ◌<◌, ◌≤◌, ◌++◌, ◌∷◌, ℕ, true, false, List, [], IfSome, IfNone, length, reverse, vec_len, vec_capacity};
ghost use Rattle.mg_node.specs.Views.{IntakeView, EngineView};
ghost use Rattle.mg_workers.specs.Woven.{woven};
ghost use Rattle.mg_workers.specs.Code.Weaving.{IsWovenFrom};

use mg_calc::NodeCalculator;
use mg_node::{Engine, Intake};
use mg_turns::Part;
use std::alloc::Global;

// Takes the last item off a list, and returns it in a box of its own. If there is none, or no memory for the box, nothing
// changes.
fn box_last<T>(alloc: Global, items: &mut Vec<T>) -> Option<Box<T>>
    ensures boxed { IfSome result (λ last. items.old.items ≡ items.new.items ++ last.value ∷ []) }
    ensures unchanged { IfNone result (items.new.items ≡ items.old.items) }
    ensures room { vec_capacity items.new ≡ vec_capacity items.old }
{
    let item = items.pop()?;
    match Box::new(alloc, item) {
        Ok(boxed) => Some(boxed),
        Err(failed) => {
            items.push_reserved(failed.value);
            None
        }
    }
}

// Moves the parts of the nodes from their lists, which have the last ones first: of each node its intake and its engine.
// Returns whether there was memory for all.
fn weave_nodes<C: NodeCalculator>(
    alloc: Global,
    nodes: u32,
    engines: &mut Vec<Engine<C>>,
    intakes: &mut Vec<Intake>,
    parts: &mut Vec<Part<C>>,
) -> bool
    requires counts { (nodes ≤ vec_len engines.old) × (nodes ≤ vec_len intakes.old) }
    requires room { (parts.old.items ≡ []) × (2 * nodes ≤ vec_capacity parts.old) }
    ensures of { IsWovenFrom nodes (reverse engines.old.items) (reverse intakes.old.items) parts.new.items engines.new.items intakes.new.items }
    ensures counts { result ≡ true → (length parts.new.items ≡ 2 * nodes) × (length engines.new.items + nodes ≡ length engines.old.items) × (length intakes.new.items + nodes ≡ length intakes.old.items) }
    ensures room { (vec_capacity engines.new ≡ vec_capacity engines.old) × (vec_capacity intakes.new ≡ vec_capacity intakes.old) × (vec_capacity parts.new ≡ vec_capacity parts.old) }
{
    for _ in 0..nodes {
        let Some(intake) = box_last(alloc, intakes) else {
            return false;
        };
        parts.push_reserved(Part::of_intake(intake));
        let Some(engine) = box_last(alloc, engines) else {
            return false;
        };
        parts.push_reserved(Part::of_engine(engine));
    }
    true
}

// Moves the engines of the graph inputs from their list to the end, after all other parts. Returns whether there was memory for
// all.
fn weave_inputs<C: NodeCalculator>(
    alloc: Global,
    engines: &mut Vec<Engine<C>>,
    parts: &mut Vec<Part<C>>,
) -> bool
    requires room { vec_len parts.old + vec_len engines.old ≤ vec_capacity parts.old }
    ensures of { (nodes : ℕ) (es : List EngineView) (is intakes : List IntakeView) → 2 * nodes < length parts.old.items → IsWovenFrom nodes es is parts.old.items engines.old.items intakes
        → IsWovenFrom nodes es is parts.new.items engines.new.items intakes }
    ensures all { result ≡ true → engines.new.items ≡ [] }
    ensures more { length parts.old.items ≤ length parts.new.items }
    ensures room { (vec_capacity engines.new ≡ vec_capacity engines.old) × (vec_capacity parts.new ≡ vec_capacity parts.old) }
{
    while let Some(engine) = box_last(alloc, engines) {
        parts.push_reserved(Part::of_engine(engine));
    }
    engines.is_empty()
}

/// Moves the engines and the intakes of a net to `parts`, in the order of their words. Returns whether there was memory for
/// all. If there was no memory for one, the ones before it are parts. The others lie in their lists, the last ones first.
pub(crate) fn weave<C: NodeCalculator>(
    alloc: Global,
    nodes: u32,
    engines: &mut Vec<Engine<C>>,
    intakes: &mut Vec<Intake>,
    parts: &mut Vec<Part<C>>,
) -> bool
    requires counts { (nodes ≤ vec_len engines.old) × (vec_len intakes.old ≡ nodes + 1) }
    requires room { (parts.old.items ≡ []) × (vec_len engines.old + vec_len intakes.old ≤ vec_capacity parts.old) }
    ensures of { IsWovenFrom nodes engines.old.items intakes.old.items parts.new.items engines.new.items intakes.new.items }
    ensures woven { result ≡ true → (parts.new.items ≡ woven nodes engines.old.items intakes.old.items) × (engines.new.items ≡ []) × (intakes.new.items ≡ []) }
    ensures room { (vec_capacity engines.new ≡ vec_capacity engines.old) × (vec_capacity intakes.new ≡ vec_capacity intakes.old) }
{
    engines.reverse();
    intakes.reverse();
    if !weave_nodes(alloc, nodes, engines, intakes, parts) {
        return false;
    }
    let Some(intake) = box_last(alloc, intakes) else {
        return false;
    };
    parts.push_reserved(Part::of_intake(intake));
    weave_inputs(alloc, engines, parts)
}
