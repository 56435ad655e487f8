//! IntSumCalculator: the sum of the numbers of a set.
ghost use Rattle.std.specs.Prelude.{◌≡◌};
ghost use Rattle.std.specs.Str.{bytes_eq};
ghost use Rattle.mg_calc.specs.Row.{IsGiven, names_of};
ghost use Rattle.mg_calc.specs.Computations.IntSum as its;

use crate::setting::is;
use crate::{CalcFault, Emission, State, Wiring, narrowed, one_number, total};
use mg_settled::InputSet;
use mg_time::Timestamp;
use mg_value::Kind;
use std::alloc::Global;

pub(super) fn is_named(name: &[u8]) -> bool
    ensures { result ≡ bytes_eq name.now its.told.name }
{
    is(name, b"IntSumCalculator")
}

pub(super) fn options() -> &'static [&'static str]
    ensures { names_of result.now ≡ its.told.options }
{
    &[]
}

pub(super) fn wiring() -> Wiring
    ensures { result ≡ its.told.wiring }
{
    Wiring {
        many: true,
        takes: Kind::Int,
        gives: Kind::Int,
    }
}

#[tactic(auto, unfolding(crate::specs::Row::IsGiven))]
pub(super) fn sum(
    alloc: Global,
    state: &State,
    at: Timestamp,
    set: &InputSet,
) -> Result<(State, Emission), CalcFault>
    ensures { IsGiven result its.sum state.now at set.now }
{
    let number = narrowed(total(set))?;
    let kept = state.try_clone(alloc)?;
    Ok((kept, one_number(alloc, at, number)?))
}
