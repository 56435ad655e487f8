use mg_calc::{NodeCalculator, Plan};
use mg_node::{Engine, Intake};
use mg_sched::{IndexedPlan, NetRest};
use std::marker::Model;

/// What stays aside while a net is shared: its plan, and what doesn't go into the shared table. With them stay the two lists in
/// which its parts lay. These lists are empty and have room for the parts again.
#[derive(Drop)]
pub struct Kept<C: NodeCalculator> {
    pub(crate) plan: IndexedPlan,
    pub(crate) engines: Vec<Engine<C>>,
    pub(crate) intakes: Vec<Intake>,
    pub(crate) rest: NetRest<C>,
}

impl<C: NodeCalculator> Model for Kept<C> {
    ghost use Rattle.std.specs.Prelude.{◌≡◌, ◌+◌, ◌≤◌, [], length, vec_capacity};
    ghost use Rattle.mg_workers.specs.Shared.{KeptView, kept_code};

    ghost Value = { KeptView };

    ghost coded = { kept_code };

    ghost view = { λ k. record { plan = k.plan; rest = k.rest } };

    ghost invariant = { λ k. (k.engines.items ≡ []) × (k.intakes.items ≡ [])
        × (length k.plan.nodes + length k.plan.inputs ≤ vec_capacity k.engines)
        × (length k.plan.nodes + 1 ≤ vec_capacity k.intakes) };
}

impl<C: NodeCalculator> Kept<C> {
    ghost use Rattle.std.specs.Prelude.{◌≡◌};

    /// The plan of the net.
    pub fn plan(&self) -> &Plan
        ensures { result.now ≡ self.now.plan }
    {
        self.plan.plan()
    }
}
