// Why a file has no parts.
use std::alloc::AllocError;
use thiserror::Error;

/// Why the parts of a new file are not told.
#[derive(Clone, Copy, Debug, PartialEq, Eq, Error)]
pub enum NewFileError {
    #[error("the file is longer than a file can be")]
    TooLong,
    #[error("memory ran out")]
    Memory,
}

impl From<AllocError> for NewFileError {
    ghost use Rattle.std.specs.Prelude.{◌≡◌};
    ghost use Rattle.edit_formats.specs.declared.parts_error.NewFileError.TheVariants.{Memory};

    ghost from_gives = { λ _ e. e ≡ Memory };

    fn from(_: AllocError) -> Self {
        NewFileError::Memory
    }
}
