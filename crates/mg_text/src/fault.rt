use std::alloc::AllocError;
use thiserror::Error;

/// Why a file isn't read. A place counts bytes from 0.
#[derive(Debug, Drop, Error)]
pub enum TextFault {
    /// The file is no text of the grammar: its first `at` bytes begin some text, and no longer prefix of the file begins one.
    #[error("no text of the grammar goes on as the file does at byte {at}")]
    Syntax { at: u32 },
    /// The mark at byte `at` opens a message inside 64 others, which is one too many.
    #[error("the message that opens at byte {at} is too deep")]
    TooDeep { at: u32 },
    /// The file has more than 4,194,304 bytes.
    #[error("the file has more than 4194304 bytes")]
    TooLong,
    /// There was no memory.
    #[error("out of memory")]
    OutOfMemory,
}

impl From<AllocError> for TextFault {
    ghost use Rattle.std.specs.Prelude.{◌≡◌};
    ghost use Rattle.mg_text.specs.declared.fault.TextFault.TheVariants.{OutOfMemory};

    ghost from_gives = { λ _ e. e ≡ OutOfMemory };

    fn from(_error: AllocError) -> TextFault {
        TextFault::OutOfMemory
    }
}
