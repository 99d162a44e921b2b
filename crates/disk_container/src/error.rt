// Why a file is no container, and why an image is not wrapped.
ghost use Rattle.std.specs.Prelude.{◌≡◌};
ghost use Rattle.disk_container.specs.declared.error.WrapError.TheVariants.{Memory};

use std::alloc::{AllocError, AllocFailed};
use thiserror::Error;

/// Why a file is no container.
#[derive(Clone, Copy, Debug, PartialEq, Eq, Error)]
pub enum ContainerFault {
    #[error("it does not begin with 2IMG")]
    Magic,
    /// The header has another length than 52 or 64 bytes, or is cut short.
    #[error("its header is no header of 52 or 64 bytes")]
    Header,
    #[error("its header tells no order of a disk image")]
    Format,
    /// The data do not lie behind the header and wholly inside the file.
    #[error("its data do not lie behind its header and inside the file")]
    Data,
    /// No image of its order has the length of the data, or the file is too long.
    #[error("no disk image has that length")]
    Length,
}

/// Why an image is not wrapped.
#[derive(Clone, Copy, Debug, PartialEq, Eq, Error)]
pub enum WrapError {
    /// No image of the order has that length, or the comment is too long.
    #[error("no disk image of that order has that length, or the comment is too long")]
    Length,
    #[error("memory ran out")]
    Memory,
}

impl From<AllocError> for WrapError {
    ghost from_gives = { λ _ e. e ≡ Memory };

    fn from(_: AllocError) -> Self {
        WrapError::Memory
    }
}

impl<T: Drop> From<AllocFailed<T>> for WrapError {
    ghost from_gives = { λ _ e. e ≡ Memory };

    fn from(_: AllocFailed<T>) -> Self {
        WrapError::Memory
    }
}
