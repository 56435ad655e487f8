ghost use Rattle.std.specs.Prelude.{◌≡◌, unwrap_or, OnErr};
ghost use Rattle.mg_time.specs.Time.{one_over_post_stream};
ghost use Rattle.mg_calc.specs.Answer.{GivesEmission};
ghost use Rattle.mg_calc.specs.Routing.{thin as the_thin, thinned as the_thinned, valid_after as is_valid_after};

use mg_calc::{CalcFault, Emission, Laid, State, no_emission, one_output};
use mg_settled::InputSet;
use mg_time::Timestamp;
use mg_value::Packet;
use std::alloc::Global;

// Returns the timestamp a period after another, or none if one of the two isn't in the range.
fn period_after(period: i64, at: Timestamp) -> Option<Timestamp>
    ensures { unwrap_or result one_over_post_stream ≡ is_valid_after period at }
{
    if at.is_range() {
        Timestamp::of_range(at.raw().checked_add(period)?)
    } else {
        None
    }
}

// Returns the timestamp from which on a packet may pass after a packet that passed: a period later, or OneOverPostStream.
fn valid_after(period: i64, at: Timestamp) -> Timestamp
    ensures { result ≡ is_valid_after period at }
{
    match period_after(period, at) {
        Some(time) => time,
        None => Timestamp::ONE_OVER_POST_STREAM,
    }
}

// Returns what a thinner emits at a packet, and keeps the next valid timestamp if the packet passes.
fn thinned(
    alloc: Global,
    period: i64,
    state: &mut State,
    at: Timestamp,
    packet: &Packet,
) -> Result<Emission, CalcFault>
    ensures answer { GivesEmission result state.new (the_thinned period state.old at packet.now) }
    ensures kept { OnErr result (state.new ≡ state.old) }
{
    let valid = state.next_valid();
    if valid <= at {
        let valid = valid_after(period, at);
        let laid = Laid::new(alloc, Some(packet.try_clone()?), Some(valid))?;
        *state = State::of_number(valid.raw());
        Ok(one_output(laid))
    } else {
        let laid = Laid::new(alloc, None, Some(valid))?;
        Ok(one_output(laid))
    }
}

/// Returns what a thinner emits at a set, and changes its state in place.
pub fn thin(
    alloc: Global,
    period: i64,
    state: &mut State,
    at: Timestamp,
    set: &InputSet,
) -> Result<Emission, CalcFault>
    ensures answer { GivesEmission result state.new (the_thin period state.old at set.now) }
    ensures kept { OnErr result (state.new ≡ state.old) }
{
    let Some(packet) = set.get(0) else {
        return Ok(no_emission(alloc)?);
    };
    thinned(alloc, period, state, at, packet)
}
