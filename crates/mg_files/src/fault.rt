ghost use Rattle.std.specs.Prelude.{◌≡◌};
ghost use Rattle.mg_files.specs.declared.fault.Fault.TheVariants.{OutOfMemory};

use std::alloc::{AllocError, AllocFailed};

/// Why a command's files can't be used.
#[derive(Debug, Drop)]
pub enum Fault {
    /// A file was refused, or couldn't be loaded. The bytes are the note, which names the file.
    Noted(Vec<u8>),
    /// Memory ran out.
    OutOfMemory,
}

impl From<AllocError> for Fault {
    ghost from_gives = { λ _ e. e ≡ OutOfMemory };

    fn from(_error: AllocError) -> Fault {
        Fault::OutOfMemory
    }
}

impl<T: Drop> From<AllocFailed<T>> for Fault {
    ghost from_gives = { λ _ e. e ≡ OutOfMemory };

    fn from(_error: AllocFailed<T>) -> Fault {
        Fault::OutOfMemory
    }
}
