//! Parts that are out of their slots.
ghost use Rattle.std.specs.Prelude.{◌≡◌, ◌+◌, ℕ, is_some, true, Some};
ghost use Rattle.mg_turns.specs.Rule.{doubled};

use crate::Part;
use mg_calc::NodeCalculator;
use mg_node::{Engine, Intake};

/// A part that is out of its slot, and its word as it is once the part is free again.
#[derive(Drop)]
pub(crate) struct Held<C: NodeCalculator> {
    pub part: Part<C>,
    pub word: u64,
}

/// An engine and an intake that are out of their slots.
#[derive(Drop)]
pub(crate) struct Pair<C: NodeCalculator> {
    pub engine: Held<C>,
    pub intake: Held<C>,
}

/// Returns a word whose tally is greater by `more`.
pub(crate) fn counted(word: u64, more: u64) -> u64
    ensures { (tally : ℕ) → word ≡ doubled tally → result ≡ doubled (tally + more) }
{
    word.wrapping_add(more << 1)
}

/// The engine and the intake of a node that are out of their slots. Their words are noted as they were, and so is how many sets
/// were laid then.
#[derive(Drop)]
pub(crate) struct HeldCell<C: NodeCalculator> {
    pub engine: Box<Engine<C>>,
    pub intake: Box<Intake>,
    pub engine_word: u64,
    pub intake_word: u64,
    pub laid: u64,
}

impl<C: NodeCalculator> Pair<C> {
    /// Returns the cell of a pair whose parts are an engine and an intake.
    pub fn into_cell(self) -> HeldCell<C>
        requires { (is_some self.engine.part.engine ≡ true) × (is_some self.intake.part.intake ≡ true) }
        ensures engine { self.engine.part.engine ≡ Some result.engine.value }
        ensures intake { self.intake.part.intake ≡ Some result.intake.value }
        ensures words { (result.engine_word ≡ self.engine.word) × (result.intake_word ≡ self.intake.word) × (result.laid ≡ result.engine.value.laid) }
    {
        let Pair { engine, intake } = self;
        let engine_word = engine.word;
        let intake_word = intake.word;
        let engine = engine.part.into_engine();
        let intake = intake.part.into_intake();
        let laid = engine.laid();
        HeldCell {
            engine,
            intake,
            engine_word,
            intake_word,
            laid,
        }
    }
}
