ghost use Rattle.std.specs.Prelude.{◌≡◌, IfOk, OnErr, map};
ghost use Rattle.mg_calc.specs.Answer.{GivesEmission};
ghost use Rattle.mg_calc.specs.Given.{given};
ghost use Rattle.mg_calc.specs.Routing.{cloner as the_cloner, renewed as the_renewed};
ghost use Rattle.mg_calc.specs.State.{kept_at};
ghost use Rattle.mg_calc.specs.Values.{place_at};
ghost use Rattle.mg_route.specs.Places.{first_places};

use crate::emissions::{Places, placed};
use mg_calc::{CalcFault, Emission, State, no_emission};
use mg_settled::InputSet;
use mg_time::Timestamp;
use mg_value::Payload;
use std::alloc::{AllocError, Global};
use std::sync::Arc;

// Returns what a place keeps after a set: the payload of the packet there, or else what it kept.
fn renewed(state: &State, set: &InputSet, i: u32) -> Result<Option<Arc<Payload>>, AllocError>
    ensures { IfOk result (λ place. given place ≡ the_renewed (place_at set.now i, kept_at state.now i)) }
{
    if let Some(packet) = set.get(i) {
        return Ok(Some(Arc::try_clone(&packet.payload)?));
    }
    match state.place(i) {
        Some(payload) => Ok(Some(Arc::try_clone(payload)?)),
        None => Ok(None),
    }
}

// Returns what each of the first `count` places keeps after a set.
fn all_renewed(
    alloc: Global,
    count: u32,
    state: &State,
    set: &InputSet,
) -> Result<Vec<Option<Arc<Payload>>>, AllocError>
    ensures { IfOk result (λ places. map given places.items ≡ first_places (λ i. the_renewed (place_at set.now i, kept_at state.now i)) count) }
{
    let mut places = Vec::with_capacity(alloc, count as usize)?;
    for i in 0..count {
        places.push(renewed(state, set, i)?)?;
    }
    Ok(places)
}

/// Returns what a cloner emits at a set, and puts what it keeps then in the place of its state.
pub fn cloner(
    alloc: Global,
    lanes: u32,
    state: &mut State,
    at: Timestamp,
    set: &InputSet,
) -> Result<Emission, CalcFault>
    ensures answer { GivesEmission result state.new (the_cloner lanes state.old at set.now) }
    ensures kept { OnErr result (state.new ≡ state.old) }
{
    let count = lanes.min(set.len());
    let renewed = State::of_places(all_renewed(alloc, count, state, set)?);
    let emission = if set.is_full(lanes) {
        placed(alloc, &renewed, at, count)?
    } else {
        no_emission(alloc)?
    };
    *state = renewed;
    Ok(emission)
}
