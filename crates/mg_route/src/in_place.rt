//! Open and Process of a calculator by its law, with its state changed in place. On an error the state stays.
ghost use Rattle.std.specs.Prelude.{◌≡◌, OnErr};
ghost use Rattle.mg_calc.specs.Answer.{Answer, Gives, GivesEmission};
ghost use Rattle.mg_calc.specs.Law.{opening, step};
ghost use Rattle.mg_calc.specs.Shape.{IsOuter, IsServed};

use crate::emissions::front;
use crate::route::route_step_in;
use mg_batch::batch_step_in;
use mg_calc::{CalcFault, Emission, GivenList, Law, State, own_begin, own_step, stays};
use mg_settled::InputSet;
use mg_time::Timestamp;
use std::alloc::Global;

/// Returns what a calculator emits when it is opened with its side packets, and puts its first state in the place of `state`.
pub fn begin_in(
    alloc: Global,
    law: &Law,
    state: &mut State,
    sides: &GivenList,
) -> Result<Emission, CalcFault>
    requires { IsServed law.now }
    ensures answer { GivesEmission result state.new (opening law.now sides.now) }
    ensures kept { OnErr result (state.new ≡ state.old) }
{
    keep_of(state, own_begin(alloc, law, sides))
}

/// Returns what a calculator emits at the set at a time, and puts its new state in the place of the old one. The cost of an EndLoop
/// grows with the set and with what is emitted, and not with the list that is kept.
#[inline(always)]
pub fn outer_step_in(
    alloc: Global,
    law: &Law,
    state: &mut State,
    at: Timestamp,
    set: &InputSet,
) -> Result<Emission, CalcFault>
    requires shown { IsOuter law.now }
    requires served { IsServed law.now }
    ensures answer { GivesEmission result state.new (step law.now state.old at set.now) }
    ensures kept { OnErr result (state.new ≡ state.old) }
{
    match law {
        Law::BeginLoop { .. } | Law::EndLoop { .. } => batch_step_in(alloc, law, state, at, set),
        Law::Pass => {
            let emission = front(alloc, set, set.len())?;
            Ok(emission)
        }
        Law::Gate { .. }
        | Law::Mux { .. }
        | Law::Cloner { .. }
        | Law::Merge { .. }
        | Law::Thin { .. } => route_step_in(alloc, law, state, at, set),
        Law::Stated { .. } => {
            let answer = stays(alloc, state);
            keep_of(state, answer)
        }
        _ => {
            let answer = own_step(alloc, law, state, at, set);
            keep_of(state, answer)
        }
    }
}

// Puts the state of an answer in the place of `state`, and returns the emission. On an error the state stays.
fn keep_of(
    state: &mut State,
    answer: Result<(State, Emission), CalcFault>,
) -> Result<Emission, CalcFault>
    ensures answer { (wanted : Answer) → Gives answer wanted → GivesEmission result state.new wanted }
    ensures kept { OnErr result (state.new ≡ state.old) }
{
    let (now, emission) = answer?;
    *state = now;
    Ok(emission)
}
