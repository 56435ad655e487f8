//! How the user-supplied calculator leaves its engine.
ghost use Rattle.std.specs.Prelude.{◌≡◌, option_map};
ghost use Rattle.mg_node.specs.Leaving.{first_handed};

use super::Engine;
use crate::leaving::{from_contexts, from_window};
use mg_calc::NodeCalculator;

impl<C: NodeCalculator> Engine<C> {
    /// Returns the user-supplied calculator, if one stands in this engine. It stands in a context that no work has, or in an outcome that
    /// came back to the window. The calculator of a work that is out is with that work.
    pub fn into_calculator(self) -> Option<C>
        ensures { option_map C.told result ≡ first_handed self }
    {
        let Engine { idle, window, .. } = self;
        match from_contexts(idle) {
            Some(calculator) => Some(calculator),
            None => from_window(window),
        }
    }
}
