// Why a program is not listed, and why a text is no program.
ghost use Rattle.std.specs.Prelude.{◌≡◌};
ghost use Rattle.applesoft.specs.declared.error.ListError.TheVariants as lists;
ghost use Rattle.applesoft.specs.declared.error.TokenError.TheVariants as tokens;

use std::alloc::{AllocError, AllocFailed};
use thiserror::Error;

/// Why a program is not listed.
#[derive(Clone, Copy, Debug, Error)]
pub enum ListError {
    /// A byte is no token, or a line or the program has no end.
    #[error("it is no program in Applesoft BASIC")]
    Form,
    #[error("memory ran out")]
    Memory,
}

/// Why a text is no program.
#[derive(Clone, Copy, Debug, Error)]
pub enum TokenError {
    /// The first line, counted from 1, with which the lines before it are no program.
    #[error("line {0} can't be taken")]
    BadLine(u64),
    #[error("memory ran out")]
    Memory,
}

impl From<AllocError> for ListError {
    ghost from_gives = { λ _ e. e ≡ lists.Memory };

    fn from(_: AllocError) -> Self {
        ListError::Memory
    }
}

impl<T: Drop> From<AllocFailed<T>> for ListError {
    ghost from_gives = { λ _ e. e ≡ lists.Memory };

    fn from(_: AllocFailed<T>) -> Self {
        ListError::Memory
    }
}

impl From<AllocError> for TokenError {
    ghost from_gives = { λ _ e. e ≡ tokens.Memory };

    fn from(_: AllocError) -> Self {
        TokenError::Memory
    }
}

impl<T: Drop> From<AllocFailed<T>> for TokenError {
    ghost from_gives = { λ _ e. e ≡ tokens.Memory };

    fn from(_: AllocFailed<T>) -> Self {
        TokenError::Memory
    }
}
