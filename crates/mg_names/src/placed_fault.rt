ghost use Rattle.std.specs.Prelude.{◌≡◌};
ghost use Rattle.mg_names.specs.Ports.{cause_of};
ghost use Rattle.mg_names.specs.declared.placed_fault.PlacedFault.TheVariants.{OutOfMemory};

use crate::fault::NameFault;
use std::alloc::{AllocError, AllocFailed};
use thiserror::Error;

/// Why a list of texts spells no ports, and where. Nothing is made, and the texts stay as they are.
#[derive(Clone, Copy, Debug, PartialEq, Eq, Error)]
pub enum PlacedFault {
    /// The text at a place, from 0 on, is the first that spells no port.
    #[error("{cause}, at place {place}")]
    At { place: usize, cause: NameFault },
    /// Each text spells a port, but a tag and index stand twice, or the indexes of a tag have a gap.
    #[error("{cause}")]
    Whole { cause: NameFault },
    /// Out of memory.
    #[error("out of memory")]
    OutOfMemory,
}

impl From<PlacedFault> for NameFault {
    ghost from_gives = { λ fault e. e ≡ cause_of fault };

    fn from(fault: PlacedFault) -> NameFault {
        match fault {
            PlacedFault::At { cause, .. } | PlacedFault::Whole { cause } => cause,
            PlacedFault::OutOfMemory => NameFault::OutOfMemory,
        }
    }
}

impl From<AllocError> for PlacedFault {
    ghost from_gives = { λ _ e. e ≡ OutOfMemory };

    fn from(_error: AllocError) -> PlacedFault {
        PlacedFault::OutOfMemory
    }
}

impl<T: Drop> From<AllocFailed<T>> for PlacedFault {
    ghost from_gives = { λ _ e. e ≡ OutOfMemory };

    fn from(_error: AllocFailed<T>) -> PlacedFault {
        PlacedFault::OutOfMemory
    }
}
