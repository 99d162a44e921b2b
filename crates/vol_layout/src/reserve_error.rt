// Why a text names no places.
ghost use Rattle.std.specs.Prelude.{◌≡◌};
ghost use Rattle.vol_layout.specs.declared.reserve_error.ReserveError.TheVariants.{Memory};

use std::alloc::{AllocError, AllocFailed};
use thiserror::Error;

/// Why a text names no places.
#[derive(Clone, Copy, Debug, Error)]
pub enum ReserveError {
    /// A word between the commas names no place.
    #[error("a word names no place")]
    Syntax,
    #[error("memory ran out")]
    Memory,
}

impl From<AllocError> for ReserveError {
    ghost from_gives = { λ _ e. e ≡ Memory };

    fn from(_: AllocError) -> Self {
        ReserveError::Memory
    }
}

impl<T: Drop> From<AllocFailed<T>> for ReserveError {
    ghost from_gives = { λ _ e. e ≡ Memory };

    fn from(_: AllocFailed<T>) -> Self {
        ReserveError::Memory
    }
}
