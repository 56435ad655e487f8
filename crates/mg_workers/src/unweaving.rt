//! How parts in the order of their words become the engines and the intakes of a net again.
ghost use Rattle.std.specs.Prelude.{◌≡◌, ◌+◌, ◌≤◌, ◌++◌, ℕ, true, false, length, reverse, vec_len, vec_capacity};
ghost use Rattle.mg_node.specs.Lawful.{Owner};
ghost use Rattle.mg_turns.specs.Words.{intake_of, engine_of, whose};
ghost use Rattle.mg_workers.specs.Code.Weaving.{engines_in, intakes_in, AreKinds};

use mg_calc::NodeCalculator;
use mg_node::{Engine, Intake};
use mg_turns::Part;

// Whether a word is that of an intake.
fn is_intake(nodes: u32, word: usize) -> bool
    ensures yes { result ≡ true → (consumer : ℕ) × (whose nodes word ≡ intake_of consumer) }
    ensures no { result ≡ false → (owner : Owner) × (whose nodes word ≡ engine_of owner) }
{
    word <= 2 * nodes as usize && word % 2 == 0
}

/// Moves parts, which stand in the order of their words, to the lists of engines and of intakes. What these lists still have,
/// the last ones first, then stands after the moved parts, in its own order. There is room for all.
pub(crate) fn unweave<C: NodeCalculator>(
    nodes: u32,
    parts: Vec<Part<C>>,
    engines: &mut Vec<Engine<C>>,
    intakes: &mut Vec<Intake>,
)
    requires kinds { AreKinds nodes parts.items }
    requires room { (length (engines_in parts.items) + vec_len engines.old ≤ vec_capacity engines.old) × (length (intakes_in parts.items) + vec_len intakes.old ≤ vec_capacity intakes.old) }
    ensures engines { engines.new.items ≡ engines_in parts.items ++ reverse engines.old.items }
    ensures room { (vec_capacity engines.new ≡ vec_capacity engines.old) × (vec_capacity intakes.new ≡ vec_capacity intakes.old) }
    ensures intakes { intakes.new.items ≡ intakes_in parts.items ++ reverse intakes.old.items }
{
    let mut parts = parts;
    while let Some(part) = parts.pop() {
        if is_intake(nodes, parts.len()) {
            intakes.push_reserved(Box::into_inner(part.into_intake()));
        } else {
            engines.push_reserved(Box::into_inner(part.into_engine()));
        }
    }
    engines.reverse();
    intakes.reverse();
}
