ghost use Rattle.std.specs.Prelude.{◌≡◌};
ghost use Rattle.mg_calc.specs.declared.cause.CalcFault.TheVariants.{OutOfMemory};

use std::alloc::{AllocError, AllocFailed};

/// Why a calculator fails, or why what it emits can't be laid.
#[derive(Clone, Copy, Debug, PartialEq, Eq)]
pub enum Cause {
    /// A number doesn't fit in 64 signed bits, or a timestamp leaves the range.
    Overflow = 1,
    /// The number at SELECT isn't that of an input.
    BadSelect = 2,
    /// A payload isn't of its port's kind.
    WrongKind = 3,
    /// A side packet that the calculator needs is missing.
    NoSide = 4,
    /// No packet may stand at the timestamp.
    NotAllowed = 5,
    /// The timestamp is below the output's bound.
    NotAscending = 6,
    /// A packet at PostStream isn't the only one of its stream.
    NotAlone = 7,
    /// The timestamp is below the one that the node's offset promises.
    BelowOffset = 8,
    /// A node with an offset emits in Close.
    EmitsInClose = 9,
    /// A list that is gathered would nest deeper than a payload may.
    TooDeep = 10,
}

/// Why a call of a calculator gives no emission.
#[derive(Clone, Copy, Debug, PartialEq, Eq)]
pub enum CalcFault {
    /// The calculator fails.
    Fault(Cause),
    /// Out of memory. Nothing has changed, and the call may be made again.
    OutOfMemory,
}

impl From<AllocError> for CalcFault {
    ghost from_gives = { λ _ e. e ≡ OutOfMemory };

    fn from(_error: AllocError) -> CalcFault {
        CalcFault::OutOfMemory
    }
}

impl<T: Drop> From<AllocFailed<T>> for CalcFault {
    ghost from_gives = { λ _ e. e ≡ OutOfMemory };

    fn from(_error: AllocFailed<T>) -> CalcFault {
        CalcFault::OutOfMemory
    }
}
