// Why two volumes are not compared.
ghost use Rattle.std.specs.Prelude.{◌≡◌};
ghost use Rattle.volume_compare.specs.declared.error.CompareError.TheVariants.{Memory as NoMemory};
ghost use Rattle.volume_compare.specs.Refusal.{refusal_of};

use crate::finding::Side;
use file_cmds::CmdError;
use std::alloc::AllocError;
use thiserror::Error;

/// Why two volumes are not compared.
#[derive(Clone, Copy, Debug, PartialEq, Eq, Error)]
pub enum CompareError {
    /// The header, the directory or the map's pointer of a volume has a fault.
    #[error("a volume has a fault")]
    Check(Side),
    /// A read fails.
    #[error("the device failed")]
    Device(Side),
    /// The files of a volume have more bytes than may be read.
    #[error("the files have too many bytes")]
    TooLarge(Side),
    #[error("out of memory")]
    Memory,
}

impl From<AllocError> for CompareError {
    ghost from_gives = { λ _ e. e ≡ NoMemory };

    fn from(_: AllocError) -> Self {
        CompareError::Memory
    }
}

impl CompareError {
    /// Why one of two volumes can't be read.
    pub fn of(side: Side, error: CmdError) -> CompareError
        ensures { result ≡ refusal_of side error }
    {
        match error {
            CmdError::Check | CmdError::NotFound => CompareError::Check(side),
            CmdError::Device => CompareError::Device(side),
            CmdError::Memory => CompareError::Memory,
        }
    }
}
