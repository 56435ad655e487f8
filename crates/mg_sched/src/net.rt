mod acting;
mod beginning;
mod carrying;
mod claiming;
mod extending;
mod extending_some;
mod joining;
mod keeping;
mod leaving;
mod looking;
mod looking_over;
mod making;
mod parting;
mod reporting;
mod resting;
mod sending;
mod sweeping;
mod taking;
mod trimming;
mod winding;
mod working;
mod working_at_once;
mod working_long;

use crate::agenda::Agenda;
use crate::work_queue::WorkQueue;
use mg_calc::{GivenList, NodeCalculator, Plan};
use mg_node::{Engine, Intake};
use mg_throttle::Limits;
use std::alloc::Global;
use std::marker::Model;

/// The cells of a graph, joined by its edges. Each engine and each intake lies at a place of its own. Those of the nodes lie at the nodes'
/// numbers. After them lie the engines of the graph inputs, and the intake of the collector of the graph's outputs.
#[derive(Drop)]
pub struct Net<C: NodeCalculator> {
    alloc: Global,
    plan: Plan,
    given: GivenList,
    engines: Vec<Engine<C>>,
    intakes: Vec<Intake>,
    work_queues: Vec<WorkQueue<C>>,
    limits: Limits,
    // For each consumer the number of the first edge into it.
    first_edges: Vec<u32>,
    // For each node that is a source its number as a feeder.
    own_feeders: Vec<Option<u32>>,
    // For each stream a number, which `trim` alone uses.
    got: Vec<u64>,
    // For each stream whether all that is laid of it is kept.
    kept: Vec<bool>,
    // The places of the user-supplied calculators. The calculators that no node uses lie here.
    spare: Vec<Option<C>>,
    // The list in which these calculators came. It is empty, and has room for all of them.
    boxes: Vec<C>,
    // How many nodes are begun, and how many are wound up, from the first on.
    begun: u32,
    wound: u32,
    // What the last sweep left for the next one.
    agenda: Option<Agenda>,
    // Whether the agenda has noted all places at which something has changed since the net was at rest.
    known: bool,
}

/// A plan with the tables that a net looks up. It is one of the parts into which a net comes apart.
#[derive(Drop)]
pub struct IndexedPlan {
    plan: Plan,
    first_edges: Vec<u32>,
    own_feeders: Vec<Option<u32>>,
    got: Vec<u64>,
}

impl Model for IndexedPlan {
    ghost use Rattle.std.specs.Prelude.{◌≡◌, length, vec_len};
    ghost use Rattle.mg_calc.specs.declared.plan.Plan.{Plan as PlanView};
    ghost use Rattle.mg_calc.specs.ToldCodes.{plan_code};
    ghost use Rattle.mg_sched.specs.Code.Tables.{AreTables};

    ghost Value = { PlanView };

    ghost coded = { plan_code };

    ghost view = { λ p. p.plan };

    ghost invariant = { λ p. AreTables p.plan p.first_edges.items p.own_feeders.items × (vec_len p.got ≡ length p.plan.streams) };
}

impl IndexedPlan {
    ghost use Rattle.std.specs.Prelude.{◌≡◌};

    /// Returns the plan.
    pub fn plan(&self) -> &Plan
        ensures { result.now ≡ self.now }
    {
        &self.plan
    }
}

/// What stays of a net when its plan, its engines and its intakes are away.
#[derive(Drop)]
pub struct NetRest<C: NodeCalculator> {
    alloc: Global,
    given: GivenList,
    work_queues: Vec<WorkQueue<C>>,
    limits: Limits,
    spare: Vec<Option<C>>,
    boxes: Vec<C>,
    kept: Vec<bool>,
}

impl<C: NodeCalculator> Model for NetRest<C> {
    ghost use Rattle.std.specs.Prelude.{◌≡◌, ◌≤◌, map, option_map, vec_len, vec_capacity};
    ghost use Rattle.mg_sched.specs.ComesApart.{RestView};
    ghost use Rattle.mg_sched.specs.Codes.{rest_code};

    ghost Value = { RestView };

    ghost coded = { rest_code };

    ghost view = { λ r. record {
      given = r.given;
      work_queues = r.work_queues.items;
      limits = r.limits;
      spare = map (option_map C.told) r.spare.items;
      kept = r.kept.items;
    } };

    ghost invariant = { λ r. (vec_len r.boxes ≡ 0) × (vec_len r.spare ≤ vec_capacity r.boxes) };
}

impl<C: NodeCalculator> Model for Net<C> {
    ghost use Rattle.std.specs.Prelude.{◌≡◌, ◌≤◌, map, option_map, length, vec_len, vec_capacity};
    ghost use Rattle.mg_sched.specs.Views.{NetView};
    ghost use Rattle.mg_sched.specs.Codes.{net_code};
    ghost use Rattle.std.specs.Prelude.{true};
    ghost use Rattle.mg_sched.specs.Code.Tables.{AreTables};
    ghost use Rattle.mg_sched.specs.Code.Quiet.{IsKeptBy, RestsButKept};

    ghost Value = { NetView };

    ghost coded = { net_code };

    ghost view = { λ n. record {
      plan = n.plan;
      given = n.given;
      engines = n.engines.items;
      intakes = n.intakes.items;
      work_queues = n.work_queues.items;
      limits = n.limits;
      spare = map (option_map C.told) n.spare.items;
      kept = n.kept.items;
      begun = n.begun;
      wound = n.wound;
    } };

    ghost invariant = { λ n. AreTables n.plan n.first_edges.items n.own_feeders.items
        × (vec_len n.boxes ≡ 0) × (vec_len n.spare ≤ vec_capacity n.boxes)
        × (vec_len n.got ≡ length n.plan.streams)
        × IsKeptBy n.plan n.agenda
        × (n.known ≡ true → RestsButKept n.plan n.engines.items n.intakes.items n.work_queues.items n.agenda) };
}
