ghost use Rattle.std.specs.Prelude.{◌≡◌, [], IfOk};
ghost use Rattle.mg_calc.specs.Answer.{Gives};
ghost use Rattle.mg_calc.specs.Shape.{IsOwn};
ghost use Rattle.mg_calc.specs.Values.{moved_time as the_moved_time};
ghost use Rattle.mg_calc.specs.Law.{step, is_kept as is_its_kept, filtered as the_filtered, filter_law, shifted as the_shifted, tally as the_tally, scripted as the_scripted};

use crate::computations::compute;
use crate::{
    CalcFault, Cause, Emission, EmissionList, Keep, Laid, Law, State, TryClone, has_wrong_kind,
    narrowed, no_emission, number_of_packet, one_number, one_output, one_packet,
};
use mg_settled::InputSet;
use mg_time::Timestamp;
use mg_value::Packet;
use std::alloc::{AllocError, Global};
use std::sync::Arc;

/// Returns what a law that this crate computes gives at a set: the new state and the emission, or the cause. These laws are `Compute`,
/// `Filter`, `Shift`, `Tally` and `Scripted`.
///
/// Payloads that go on are shared.
#[tactic(auto, unfolding(crate::specs::Row::IsGiven))]
pub fn own_step(
    alloc: Global,
    law: &Law,
    state: &State,
    at: Timestamp,
    set: &InputSet,
) -> Result<(State, Emission), CalcFault>
    requires { IsOwn law.now }
    ensures { Gives result (step law.now state.now at set.now) }
{
    if has_wrong_kind(law, set) {
        return Err(CalcFault::Fault(Cause::WrongKind));
    }
    match law {
        Law::Compute(computation) => compute(alloc, computation.formula, state, at, set),
        Law::Filter { keep, raise } => filter(alloc, *keep, *raise, state, at, set),
        Law::Shift { offset } => shifted(alloc, *offset, state, at, set),
        Law::Tally => tally(alloc, state, at),
        Law::Scripted { steps, .. } => scripted(alloc, steps, state),
        _ => unreachable!(),
    }
}

/// Returns the state as it is, and the emission that emits nothing.
pub fn stays(alloc: Global, state: &State) -> Result<(State, Emission), CalcFault>
    ensures { Gives result (Ok (state.now, [])) }
{
    let kept = state.try_clone(alloc)?;
    Ok((kept, no_emission(alloc)?))
}

fn is_kept(keep: Keep, number: i64) -> bool
    ensures { result ≡ is_its_kept keep number }
{
    match keep {
        Keep::Even => number % 2 == 0,
        Keep::Odd => number % 2 != 0,
        Keep::Negative => number < 0,
        Keep::NonNegative => number >= 0,
    }
}

fn filtered(
    alloc: Global,
    keeps: bool,
    raises: bool,
    at: Timestamp,
    packet: &Packet,
) -> Result<Emission, AllocError>
    ensures { IfOk result (λ emission. emission ≡ the_filtered keeps raises at packet.now) }
{
    if keeps {
        let bound = if raises {
            Some(at.next_allowed())
        } else {
            None
        };
        let packet = packet.try_clone()?;
        Ok(one_output(Laid::new(alloc, Some(packet), bound)?))
    } else if raises {
        Ok(one_output(Laid::new(alloc, None, Some(at.next_allowed()))?))
    } else {
        no_emission(alloc)
    }
}

fn filter(
    alloc: Global,
    keep: Keep,
    raise: bool,
    state: &State,
    at: Timestamp,
    set: &InputSet,
) -> Result<(State, Emission), CalcFault>
    ensures { Gives result (filter_law keep raise state.now at set.now) }
{
    let Some(packet) = set.get(0) else {
        return stays(alloc, state);
    };
    let keeps = is_kept(keep, number_of_packet(packet));
    let kept = state.try_clone(alloc)?;
    Ok((kept, filtered(alloc, keeps, raise, at, packet)?))
}

fn moved_time(at: Timestamp, offset: i64) -> Option<Timestamp>
    ensures { result ≡ the_moved_time at offset }
{
    if at.is_range() {
        Timestamp::of_range(at.raw().checked_add(offset)?)
    } else {
        Some(at)
    }
}

fn shifted(
    alloc: Global,
    offset: i64,
    state: &State,
    at: Timestamp,
    set: &InputSet,
) -> Result<(State, Emission), CalcFault>
    ensures { Gives result (the_shifted offset state.now at set.now) }
{
    let Some(packet) = set.get(0) else {
        return stays(alloc, state);
    };
    let Some(at) = moved_time(at, offset) else {
        return Err(CalcFault::Fault(Cause::Overflow));
    };
    let payload = Arc::try_clone(&packet.payload)?;
    let kept = state.try_clone(alloc)?;
    Ok((kept, one_packet(Packet { at, payload })))
}

fn tally(alloc: Global, state: &State, at: Timestamp) -> Result<(State, Emission), CalcFault>
    ensures { Gives result (the_tally state.now at) }
{
    let count = narrowed(i128::from(state.number()) + 1)?;
    let emission = one_number(alloc, at, count)?;
    Ok((State::of_number(count), emission))
}

fn scripted(
    alloc: Global,
    steps: &EmissionList,
    state: &State,
) -> Result<(State, Emission), CalcFault>
    ensures { Gives result (the_scripted steps.now state.now) }
{
    let count = state.count();
    if count >= u64::from(steps.len()) {
        return stays(alloc, state);
    }
    let Some(emission) = steps.get(count as u32) else {
        return stays(alloc, state);
    };
    let emission = emission.try_clone(alloc)?;
    Ok((State::of_number(count as i64 + 1), emission))
}
