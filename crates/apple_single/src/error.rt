// Why a file is not printed.
ghost use Rattle.std.specs.Prelude.{◌≡◌};
ghost use Rattle.apple_single.specs.declared.error.PrintError.TheVariants.{Memory};

use std::alloc::{AllocError, AllocFailed};
use thiserror::Error;

/// Why a file is not printed.
#[derive(Clone, Copy, Debug, Error)]
pub enum PrintError {
    /// An offset or a length is past 32 bits.
    #[error("it is too long for AppleSingle")]
    TooLong,
    #[error("memory ran out")]
    Memory,
}

impl From<AllocError> for PrintError {
    ghost from_gives = { λ _ e. e ≡ Memory };

    fn from(_: AllocError) -> Self {
        PrintError::Memory
    }
}

impl<T: Drop> From<AllocFailed<T>> for PrintError {
    ghost from_gives = { λ _ e. e ≡ Memory };

    fn from(_: AllocFailed<T>) -> Self {
        PrintError::Memory
    }
}
