//! What the calculators of loops over lists give at a set, by their law.
ghost use Rattle.std.specs.Prelude.{◌≡◌, OnErr};
ghost use Rattle.mg_calc.specs.Answer.{Gives, GivesEmission};
ghost use Rattle.mg_calc.specs.Law.{step};
ghost use Rattle.mg_calc.specs.Shape.{IsBatch};

use crate::begin_loop::begin_loop;
use crate::end_loop::end_loop;
use mg_calc::{CalcFault, Cause, Emission, Law, State, has_wrong_kind};
use mg_settled::InputSet;
use mg_time::Timestamp;
use std::alloc::Global;

/// Returns what a BeginLoop or EndLoop calculator gives at a set: its new state and its emission, or its cause.
///
/// The new state shares the payloads that the old one keeps, one by one; `batch_step_in` changes a state in place.
pub fn batch_step(
    alloc: Global,
    law: &Law,
    state: &State,
    at: Timestamp,
    set: &InputSet,
) -> Result<(State, Emission), CalcFault>
    requires { IsBatch law.now }
    ensures { Gives result (step law.now state.now at set.now) }
{
    let mut kept = state.try_clone(alloc)?;
    let emission = batch_step_in(alloc, law, &mut kept, at, set)?;
    Ok((kept, emission))
}

/// Returns what a BeginLoop or EndLoop calculator emits at a set, or its cause, and changes its state in place. On an error the state
/// stays. The cost grows with the set and with what is emitted, and not with what is kept.
pub fn batch_step_in(
    alloc: Global,
    law: &Law,
    state: &mut State,
    at: Timestamp,
    set: &InputSet,
) -> Result<Emission, CalcFault>
    requires { IsBatch law.now }
    ensures answer { GivesEmission result state.new (step law.now state.old at set.now) }
    ensures kept { OnErr result (state.new ≡ state.old) }
{
    if has_wrong_kind(law, set) {
        return Err(CalcFault::Fault(Cause::WrongKind));
    }
    match law {
        Law::BeginLoop { clones, always_end } => {
            begin_loop(alloc, *clones, *always_end, state, at, set)
        }
        Law::EndLoop { empty_as_bound } => end_loop(alloc, *empty_as_bound, state, set),
        _ => unreachable!(),
    }
}
