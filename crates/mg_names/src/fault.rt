ghost use Rattle.std.specs.Prelude.{◌≡◌};
ghost use Rattle.mg_names.specs.declared.fault.NameFault.TheVariants.{OutOfMemory};

use std::alloc::{AllocError, AllocFailed};
use thiserror::Error;

/// Why texts spell no ports. Nothing is made, and the texts stay as they are.
#[derive(Clone, Copy, Debug, PartialEq, Eq, Error)]
pub enum NameFault {
    /// A name isn't `[a-z_][a-z0-9_]*`, or a text has more than two colons.
    #[error("the name of a port is faulty")]
    BadName = 1,
    /// A tag isn't `[A-Z_][A-Z0-9_]*`.
    #[error("the tag of a port is faulty")]
    BadTag = 2,
    /// An index isn't 0 to 63 in decimal without leading zeros, or this is the 65th untagged port.
    #[error("the index of a port is faulty")]
    BadIndex = 3,
    /// The indexes of a tag don't run from 0 without gaps.
    #[error("the indexes of a tag have a gap")]
    Gap = 4,
    /// Two ports have the same tag and index.
    #[error("a tag and index stand twice")]
    Twice = 5,
    /// Out of memory.
    #[error("out of memory")]
    OutOfMemory = 6,
}

impl From<AllocError> for NameFault {
    ghost from_gives = { λ _ e. e ≡ OutOfMemory };

    fn from(_error: AllocError) -> NameFault {
        NameFault::OutOfMemory
    }
}

impl<T: Drop> From<AllocFailed<T>> for NameFault {
    ghost from_gives = { λ _ e. e ≡ OutOfMemory };

    fn from(_error: AllocFailed<T>) -> NameFault {
        NameFault::OutOfMemory
    }
}
