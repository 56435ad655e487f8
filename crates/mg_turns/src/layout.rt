use crate::Part;
use mg_calc::{NodeCalculator, Plan};
use std::marker::Model;

/// A plan and the parts of its net, each at the place of its word. With n nodes, the intake of node i is at 2i and its engine
/// at 2i + 1. The collector's intake is at 2n. The engine of graph input j is at 2n + 1 + j.
#[derive(Drop)]
pub struct Layout<C: NodeCalculator> {
    pub(crate) plan: Plan,
    pub(crate) parts: Vec<Part<C>>,
}

impl<C: NodeCalculator> Model for Layout<C> {
    ghost use Rattle.mg_turns.specs.Parts.{LayoutView, layout_code};

    ghost Value = { LayoutView };

    ghost coded = { layout_code };

    ghost view = { λ f. record { plan = f.plan; parts = f.parts.items } };
}

impl<C: NodeCalculator> Layout<C> {
    ghost use Rattle.std.specs.Prelude.{◌≡◌};

    /// The layout of a plan and its parts.
    pub fn new(plan: Plan, parts: Vec<Part<C>>) -> Layout<C>
        ensures { result ≡ record { plan = plan; parts = parts.items } }
    {
        Layout { plan, parts }
    }

    /// Returns the plan and the parts.
    pub fn into_parts(self) -> (Plan, Vec<Part<C>>)
        ensures { self ≡ record { plan = result.0; parts = result.1.items } }
    {
        let Layout { plan, parts } = self;
        (plan, parts)
    }
}
