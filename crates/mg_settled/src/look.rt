ghost use Rattle.std.specs.Prelude.{◌≡◌, min};
ghost use Rattle.mg_settled.specs.Settled.{low};
ghost use Rattle.mg_settled.specs.FirstSet.{earliest};

use crate::rest::Rest;
use mg_time::Timestamp;

/// What one look at what is left at each port finds.
#[derive(Clone, Copy)]
pub(crate) struct Look {
    /// The least time of a first packet, and `DONE` if no packet is left.
    pub(crate) earliest: Timestamp,
    /// The least bound, and `DONE` if there is no port.
    pub(crate) low: Timestamp,
}

/// The lesser of two timestamps.
pub(crate) fn lesser(a: Timestamp, b: Timestamp) -> Timestamp
    ensures { result ≡ min a b }
{
    if b < a { b } else { a }
}

/// Looks once at what is left at each port.
pub(crate) fn look_at(rests: &[Rest<'_>]) -> Look
    ensures earliest { result.earliest ≡ earliest rests.now }
    ensures low { result.low ≡ low rests.now }
{
    let mut earliest = Timestamp::DONE;
    let mut low = Timestamp::DONE;
    for rest in rests {
        earliest = lesser(earliest, rest.first_time());
        low = lesser(low, rest.bound());
    }
    Look { earliest, low }
}
