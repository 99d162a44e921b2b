// Why an edit is refused.
ghost use Rattle.std.specs.Prelude.{◌≡◌};
ghost use Rattle.edit_formats.specs.declared.error.EditError.TheVariants.{Memory};
ghost use Rattle.edit_formats.specs.Refusal.{refusal_of_check};

use std::alloc::{AllocError, Allocator};
use thiserror::Error;
use vol_check::CheckError;

/// Why a command that changes a volume is refused. Of several causes the first in this order is told.
#[derive(Clone, Copy, Debug, PartialEq, Eq, Error)]
pub enum EditError {
    /// The volume is not accepted.
    #[error("the volume has a fault")]
    Check,
    #[error("the volume has no such file")]
    NotFound,
    #[error("no file can have this name")]
    Name,
    #[error("the directory has an entry of this name")]
    Exists,
    #[error("the file is locked")]
    Locked,
    #[error("the file is too long")]
    TooLong,
    #[error("the directory has no free entry")]
    DirFull,
    #[error("the volume has too few free places")]
    VolumeFull,
    #[error("the device failed")]
    Device,
    #[error("memory ran out")]
    Memory,
}

impl From<AllocError> for EditError {
    ghost from_gives = { λ _ e. e ≡ Memory };

    fn from(_: AllocError) -> Self {
        EditError::Memory
    }
}

impl<A: Allocator> From<CheckError<A>> for EditError {
    ghost from_gives = { λ check e. e ≡ refusal_of_check check };

    fn from(error: CheckError<A>) -> Self {
        match error {
            CheckError::Faults(_) => EditError::Check,
            CheckError::Device => EditError::Device,
            CheckError::Memory => EditError::Memory,
        }
    }
}
