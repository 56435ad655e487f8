//! RunningSumCalculator: the sum of all numbers so far, which is kept.
ghost use Rattle.std.specs.Prelude.{◌≡◌};
ghost use Rattle.std.specs.Str.{bytes_eq};
ghost use Rattle.mg_calc.specs.Row.{IsGiven, names_of};
ghost use Rattle.mg_calc.specs.Computations.RunningSum as its;

use crate::setting::is;
use crate::{CalcFault, Emission, State, Wiring, narrowed, number_of_packet, one_number, stays};
use mg_settled::InputSet;
use mg_time::Timestamp;
use mg_value::Kind;
use std::alloc::Global;

pub(super) fn is_named(name: &[u8]) -> bool
    ensures { result ≡ bytes_eq name.now its.told.name }
{
    is(name, b"RunningSumCalculator")
}

pub(super) fn options() -> &'static [&'static str]
    ensures { names_of result.now ≡ its.told.options }
{
    &[]
}

pub(super) fn wiring() -> Wiring
    ensures { result ≡ its.told.wiring }
{
    Wiring {
        many: false,
        takes: Kind::Int,
        gives: Kind::Int,
    }
}

#[tactic(auto, unfolding(crate::specs::Row::IsGiven))]
pub(super) fn running(
    alloc: Global,
    state: &State,
    at: Timestamp,
    set: &InputSet,
) -> Result<(State, Emission), CalcFault>
    ensures { IsGiven result its.running state.now at set.now }
{
    let Some(packet) = set.get(0) else {
        return stays(alloc, state);
    };
    let sum = narrowed(i128::from(state.number()) + i128::from(number_of_packet(packet)))?;
    let emission = one_number(alloc, at, sum)?;
    Ok((State::of_number(sum), emission))
}
