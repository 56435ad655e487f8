ghost use Rattle.std.specs.Prelude.{◌≡◌};
ghost use Rattle.mg_json.specs.declared.value_fault.ValueFault.TheVariants.{OutOfMemory};

use std::alloc::{AllocError, AllocFailed};
use thiserror::Error;

/// Why a JSON value is no payload.
#[derive(Clone, Copy, Debug, PartialEq, Eq, Error)]
pub enum ValueFault {
    /// A number that `serde_json` holds as a float. It has a fraction or an exponent, or it is `-0`, or a whole number
    /// of 2^64 or more, or below -2^63.
    #[error("a number isn't a whole number of 64 signed bits")]
    Fraction = 1,
    /// A `null`.
    #[error("null is no value")]
    Null = 2,
    /// A list or a record lies inside 16 others.
    #[error("lists and records are more than 16 deep")]
    TooDeep = 4,
    /// A whole number from 2^63 to 2^64 - 1.
    #[error("a whole number is more than 9223372036854775807")]
    TooWide = 5,
    /// Out of memory.
    #[error("out of memory")]
    OutOfMemory = 6,
}

impl From<AllocError> for ValueFault {
    ghost from_gives = { λ _ e. e ≡ OutOfMemory };

    fn from(_error: AllocError) -> ValueFault {
        ValueFault::OutOfMemory
    }
}

impl<T: Drop> From<AllocFailed<T>> for ValueFault {
    ghost from_gives = { λ _ e. e ≡ OutOfMemory };

    fn from(_error: AllocFailed<T>) -> ValueFault {
        ValueFault::OutOfMemory
    }
}
