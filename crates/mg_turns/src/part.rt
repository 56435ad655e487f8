ghost use Rattle.std.specs.Prelude.{◌≡◌, Some, true, is_some};
ghost use Rattle.mg_turns.specs.Parts.{an_engine, an_intake};

use mg_calc::NodeCalculator;
use mg_node::{Engine, Intake};
use std::marker::Model;

/// What lies in a slot: an engine or an intake. Each is on the heap, so that little is moved when it leaves its slot.
#[derive(Drop)]
pub struct Part<C: NodeCalculator> {
    engine: Option<Box<Engine<C>>>,
    intake: Option<Box<Intake>>,
}

impl<C: NodeCalculator> Model for Part<C> {
    ghost use Rattle.std.specs.Prelude.{option_map};
    ghost use Rattle.mg_turns.specs.Parts.{PartView, part_code};

    ghost Value = { PartView };

    ghost coded = { part_code };

    ghost view = { λ p. record { engine = option_map (λ b. b.value) p.engine; intake = option_map (λ b. b.value) p.intake } };
}

impl<C: NodeCalculator> Part<C> {
    /// The part of an engine.
    pub fn of_engine(engine: Box<Engine<C>>) -> Part<C>
        ensures { result ≡ an_engine engine.value }
    {
        Part {
            engine: Some(engine),
            intake: None,
        }
    }

    /// The part of an intake.
    pub fn of_intake(intake: Box<Intake>) -> Part<C>
        ensures { result ≡ an_intake intake.value }
    {
        Part {
            engine: None,
            intake: Some(intake),
        }
    }

    /// Returns the engine of a part that is one.
    pub fn into_engine(self) -> Box<Engine<C>>
        requires { is_some self.engine ≡ true }
        ensures { self.engine ≡ Some result.value }
    {
        let Part { engine, .. } = self;
        match engine {
            Some(engine) => engine,
            None => unreachable!(),
        }
    }

    /// Returns the intake of a part that is one.
    pub fn into_intake(self) -> Box<Intake>
        requires { is_some self.intake ≡ true }
        ensures { self.intake ≡ Some result.value }
    {
        let Part { intake, .. } = self;
        match intake {
            Some(intake) => intake,
            None => unreachable!(),
        }
    }
}
