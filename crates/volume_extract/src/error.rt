// Why the files of a volume are not put into a folder.
ghost use Rattle.std.specs.Prelude.{◌≡◌};
ghost use Rattle.volume_extract.specs.declared.error.ExtractError.TheVariants.{Memory as NoMemory};
ghost use Rattle.volume_extract.specs.Refusal.{refusal_of};

use file_cmds::CmdError;
use host_folders::FolderFailure;
use std::alloc::AllocError;
use thiserror::Error;

/// Why the files of a volume are not put into a folder.
#[derive(Clone, Copy, Debug, Error)]
pub enum ExtractError {
    /// The header, the directory or the map's pointer of the volume has a fault.
    #[error("the volume has a fault")]
    Check,
    /// A read of these fails.
    #[error("the device failed")]
    Device,
    /// An entry stands in too many directories, or its path on the host is too long.
    #[error("an entry stands in too many directories")]
    TooDeep,
    /// The files have more bytes than may be put into the folder.
    #[error("the files have too many bytes")]
    TooLarge,
    /// A call of the folder fails.
    #[error("the folder failed")]
    Folder(FolderFailure),
    #[error("memory ran out")]
    Memory,
}

impl From<AllocError> for ExtractError {
    ghost from_gives = { λ _ e. e ≡ NoMemory };

    fn from(_: AllocError) -> Self {
        ExtractError::Memory
    }
}

impl From<CmdError> for ExtractError {
    ghost from_gives = { λ error e. e ≡ refusal_of error };

    fn from(error: CmdError) -> Self {
        match error {
            CmdError::Check | CmdError::NotFound => ExtractError::Check,
            CmdError::Device => ExtractError::Device,
            CmdError::Memory => ExtractError::Memory,
        }
    }
}
