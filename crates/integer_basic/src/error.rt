// Why a program is not listed.
ghost use Rattle.std.specs.Prelude.{◌≡◌};
ghost use Rattle.integer_basic.specs.declared.error.ListError.TheVariants.{Memory};

use std::alloc::{AllocError, AllocFailed};
use thiserror::Error;

/// Why a program is not listed.
#[derive(Clone, Copy, Debug, Error)]
pub enum ListError {
    /// A line has no end, or one of its bytes shows nothing.
    #[error("it is no program in Integer BASIC")]
    Form,
    #[error("memory ran out")]
    Memory,
}

impl From<AllocError> for ListError {
    ghost from_gives = { λ _ e. e ≡ Memory };

    fn from(_: AllocError) -> Self {
        ListError::Memory
    }
}

impl<T: Drop> From<AllocFailed<T>> for ListError {
    ghost from_gives = { λ _ e. e ≡ Memory };

    fn from(_: AllocFailed<T>) -> Self {
        ListError::Memory
    }
}
