ghost use Rattle.std.specs.Prelude.{◌≡◌};
ghost use Rattle.mg_config.specs.declared.fault.ConfigFault.TheVariants.{OutOfMemory};

use mg_names::NameFault;
use mg_value::MgText;
use std::alloc::{AllocError, AllocFailed};
use thiserror::Error;

/// Why the fields of a file are no configuration. A path names a field from the top, as `node[2].input_stream[0]`;
/// the number counts the fields of that name before it. Nothing is made, and the fields stay as they are.
#[derive(Debug, Drop, Error)]
pub enum ConfigFault {
    /// A graph, a node or a message in one has no field of this name.
    #[error("there is no field {}", .path.as_str())]
    UnknownField { path: MgText },
    /// A value isn't of its field's shape, a number doesn't fit in 32 bits, or a node has no calculator.
    #[error("the value of {} has another shape", .path.as_str())]
    WrongShape { path: MgText },
    /// A field that may stand once stands a second time.
    #[error("{} stands twice", .path.as_str())]
    Repeated { path: MgText },
    /// A text spells no port, or no tag and index. Or each text of a list spells a port, but the texts spell no ports together.
    #[error("{} is refused: {cause}", .path.as_str())]
    BadPort { path: MgText, cause: NameFault },
    /// There was no memory.
    #[error("out of memory")]
    OutOfMemory,
}

impl From<AllocError> for ConfigFault {
    ghost from_gives = { λ _ e. e ≡ OutOfMemory };

    fn from(_error: AllocError) -> ConfigFault {
        ConfigFault::OutOfMemory
    }
}

impl<T: Drop> From<AllocFailed<T>> for ConfigFault {
    ghost from_gives = { λ _ e. e ≡ OutOfMemory };

    fn from(_error: AllocFailed<T>) -> ConfigFault {
        ConfigFault::OutOfMemory
    }
}
