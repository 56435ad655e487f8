ghost use Rattle.std.specs.Prelude.{◌≡◌, ◌<◌, ◌^◌, pos, neg_ℤ, ◌+ℤ◌, ◌*ℤ◌, ◌≤ℤ◌};
ghost use Rattle.mg_calc.specs.Answer.{Gives, GivesEmission};
ghost use Rattle.mg_calc.specs.Law.{opening, call as its_call};
ghost use Rattle.mg_calc.specs.Shape.{IsServed, IsSource, calls_of};
ghost use Rattle.mg_calc.specs.Values.{time_of};

use crate::{
    CalcFault, Cause, Emission, GivenList, Law, State, TryClone, narrowed, no_emission, one_number,
    one_packet,
};
use mg_time::Timestamp;
use mg_value::Packet;
use std::alloc::Global;
use std::sync::Arc;

/// Returns what Open of a law gives for its side packets: the first state and the emission, or the cause.
pub fn own_begin(
    alloc: Global,
    law: &Law,
    sides: &GivenList,
) -> Result<(State, Emission), CalcFault>
    requires { IsServed law.now }
    ensures { Gives result (opening law.now sides.now) }
{
    match law {
        Law::SideOnce { .. } => {
            let Some(Some(side)) = sides.get(0) else {
                return Err(CalcFault::Fault(Cause::NoSide));
            };
            let places = vec![in alloc; Some(Arc::try_clone(side)?)]?;
            Ok((State::of_places(places), no_emission(alloc)?))
        }
        Law::Scripted { first, .. } => Ok((State::empty(), first.try_clone(alloc)?)),
        _ => Ok((State::empty(), no_emission(alloc)?)),
    }
}

/// Returns what a source emits at the call of a number, from 0 on, or its cause. A call doesn't change a source's state.
pub fn source_step(
    alloc: Global,
    law: &Law,
    state: &State,
    call: u64,
) -> Result<Emission, CalcFault>
    requires source { IsSource law.now }
    requires number { call < calls_of law.now }
    ensures { GivesEmission result state.now (its_call law.now state.now call) }
{
    match law {
        Law::Count { count, start, step } => {
            let _count = *count;
            let number = call as u32;
            let Some(at) = time_after(*start, *step, number) else {
                return Err(CalcFault::Fault(Cause::Overflow));
            };
            Ok(one_number(alloc, at, i64::from(number))?)
        }
        Law::SideOnce { at } => {
            let Some(payload) = state.place(0) else {
                return Ok(no_emission(alloc)?);
            };
            let payload = Arc::try_clone(payload)?;
            Ok(one_packet(Packet { at: *at, payload }))
        }
        _ => unreachable!(),
    }
}

// Returns `number` times `step`.
fn steps(step: i64, number: u32) -> i128
    ensures value { result ≡ pos number *ℤ step }
    ensures low { neg_ℤ (pos (2 ^ 95)) ≤ℤ result }
    ensures high { result ≤ℤ pos (2 ^ 95) }
{
    i128::from(number) * i128::from(step)
}

// Returns the timestamp `number` steps after `start`, if it is in the range.
fn time_after(start: i64, step: i64, number: u32) -> Option<Timestamp>
    ensures { result ≡ time_of (start +ℤ (pos number *ℤ step)) }
{
    let Ok(sum) = narrowed(i128::from(start) + steps(step, number)) else {
        return None;
    };
    Timestamp::of_range(sum)
}
