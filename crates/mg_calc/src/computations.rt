//! The list of the built-in calculators that compute. Each has a file of its own in `computations`.
ghost use Rattle.std.specs.Prelude.{◌≡◌, map};
ghost use Rattle.mg_calc.specs.Row.{IsGiven, keeps_nothing as it_keeps_nothing, names_of, said};
ghost use Rattle.mg_calc.specs.Computations as list;

pub(crate) mod int_map;
mod int_sum;
mod running_sum;

use crate::computations::int_map::MapOp;
use crate::{CalcFault, Emission, Setting, State};
use mg_settled::InputSet;
use mg_time::Timestamp;
use mg_value::Kind;
use std::alloc::Global;

/// What a computation computes, with its parameters.
#[derive(Clone, Copy, Debug)]
pub enum Formula {
    /// The sum of the numbers of a set.
    Sum,
    /// The result of an operation on each number and an operand.
    Map { op: MapOp, operand: i64 },
    /// At each number the sum of all numbers so far.
    Running,
}

/// A computation: what it computes, and its streams.
#[derive(Clone, Copy, Debug)]
pub struct Computation {
    pub formula: Formula,
    /// How many inputs there are, from 1 to 64.
    pub lanes: u32,
    /// The kind of packets that each input takes.
    pub takes: Kind,
    /// The kind of packets that the output has.
    pub gives: Kind,
}

/// Which streams a kind of computation has: untagged inputs and one untagged output.
#[derive(Clone, Copy, Debug, PartialEq, Eq)]
pub struct Wiring {
    /// Whether a node has any number of inputs, from 1 to 64. If not, it has one.
    pub many: bool,
    /// The kind of packets that each input takes.
    pub takes: Kind,
    /// The kind of packets that the output has.
    pub gives: Kind,
}

/// The built-in calculators that compute.
#[derive(Clone, Copy, Debug, PartialEq, Eq)]
pub enum ComputationKind {
    /// IntSumCalculator
    IntSum,
    /// IntMapCalculator
    IntMap,
    /// RunningSumCalculator
    RunningSum,
}

/// Returns the kind that has a name, if there is one.
pub fn computation_named(name: &[u8]) -> Option<ComputationKind>
    ensures { result ≡ list.computation_named name.now }
{
    if int_sum::is_named(name) {
        Some(ComputationKind::IntSum)
    } else if int_map::is_named(name) {
        Some(ComputationKind::IntMap)
    } else if running_sum::is_named(name) {
        Some(ComputationKind::RunningSum)
    } else {
        None
    }
}

impl ComputationKind {
    /// Returns the names of the kind's options. Each option may be set at most once.
    pub fn options(self) -> &'static [&'static str]
        ensures { names_of result.now ≡ (list.kind_row self).options }
    {
        match self {
            ComputationKind::IntSum => int_sum::options(),
            ComputationKind::IntMap => int_map::options(),
            ComputationKind::RunningSum => running_sum::options(),
        }
    }

    /// Returns which streams a node of the kind has.
    pub fn wiring(self) -> Wiring
        ensures { result ≡ (list.kind_row self).wiring }
    {
        match self {
            ComputationKind::IntSum => int_sum::wiring(),
            ComputationKind::IntMap => int_map::wiring(),
            ComputationKind::RunningSum => running_sum::wiring(),
        }
    }

    /// Returns what a node of the kind computes by its settings, or none if they don't set it. The settings stand in the order of the
    /// options' names.
    pub fn formula(self, settings: &[Setting]) -> Option<Formula>
        ensures { result ≡ (list.kind_row self).formula (map said settings.now) }
    {
        match self {
            ComputationKind::IntSum => Some(Formula::Sum),
            ComputationKind::IntMap => int_map::formula(settings),
            ComputationKind::RunningSum => Some(Formula::Running),
        }
    }
}

/// Whether a computation keeps nothing from one set to the next.
pub(crate) fn keeps_nothing(formula: Formula) -> bool
    ensures { result ≡ it_keeps_nothing (list.row_of formula) }
{
    match formula {
        Formula::Sum => true,
        Formula::Map { .. } => true,
        Formula::Running => false,
    }
}

/// Returns what a computation gives at a set: the new state and the emission, or the cause.
#[inline]
#[tactic(auto, using(crate::proofs::ByFormula::by_formula))]
pub(crate) fn compute(
    alloc: Global,
    formula: Formula,
    state: &State,
    at: Timestamp,
    set: &InputSet,
) -> Result<(State, Emission), CalcFault>
    ensures { IsGiven result (list.row_of formula) state.now at set.now }
{
    match formula {
        Formula::Sum => int_sum::sum(alloc, state, at, set),
        Formula::Map { op, operand } => int_map::map(alloc, op, operand, state, at, set),
        Formula::Running => running_sum::running(alloc, state, at, set),
    }
}
