//! How user-supplied calculators leave the contexts and the window where they stand.
ghost use Rattle.std.specs.Prelude.{◌≡◌, map, option_map, slice_get};
ghost use Rattle.std.specs.List.{filter_map};
ghost use Rattle.mg_node.specs.Leaving.{calculator_in, handed_told};

use crate::Context;
use crate::entry::Entry;
use mg_calc::NodeCalculator;
use std::collections::VecDeque;

/// Returns the first user-supplied calculator of those in some contexts.
pub(crate) fn from_contexts<C: NodeCalculator>(contexts: Vec<Context<C>>) -> Option<C>
    ensures { option_map C.told result ≡ slice_get (filter_map handed_told (map (λ b. b.told) contexts.items)) 0 }
{
    for context in contexts {
        if let Some(calculator) = context.into_calculator() {
            return Some(calculator);
        }
    }
    None
}

/// Returns the first user-supplied calculator of those in the outcomes of a window.
pub(crate) fn from_window<C: NodeCalculator>(window: VecDeque<Entry<C>>) -> Option<C>
    ensures { option_map C.told result ≡ slice_get (filter_map handed_told (filter_map calculator_in window.items)) 0 }
{
    let mut window = window;
    while let Some(entry) = window.pop_front() {
        if let Some(calculator) = entry.into_calculator() {
            return Some(calculator);
        }
    }
    None
}
