// Why a command is refused.
ghost use Rattle.std.specs.Prelude.{◌≡◌};
ghost use Rattle.file_cmds.specs.declared.error.CmdError.TheVariants.{Memory};
ghost use Rattle.file_cmds.specs.Refusal.{refusal_of, refusal_of_check};

use a2_device::WalkError;
use std::alloc::{AllocError, Allocator};
use thiserror::Error;
use vol_check::CheckError;

/// Why a command on a volume is refused.
#[derive(Clone, Copy, Debug, PartialEq, Eq, Error)]
pub enum CmdError {
    /// The header or the directory of the volume has a fault, or the file has.
    #[error("the volume has a fault")]
    Check,
    #[error("the volume has no such file")]
    NotFound,
    #[error("the device failed")]
    Device,
    #[error("memory ran out")]
    Memory,
}

impl From<AllocError> for CmdError {
    ghost from_gives = { λ _ e. e ≡ Memory };

    fn from(_: AllocError) -> Self {
        CmdError::Memory
    }
}

impl From<WalkError> for CmdError {
    ghost from_gives = { λ walk e. e ≡ refusal_of walk };

    fn from(error: WalkError) -> Self {
        match error {
            WalkError::Fault(_) => CmdError::Check,
            WalkError::Device => CmdError::Device,
            WalkError::Memory => CmdError::Memory,
        }
    }
}

impl<A: Allocator> From<CheckError<A>> for CmdError {
    ghost from_gives = { λ check e. e ≡ refusal_of_check check };

    fn from(error: CheckError<A>) -> Self {
        match error {
            CheckError::Faults(_) => CmdError::Check,
            CheckError::Device => CmdError::Device,
            CheckError::Memory => CmdError::Memory,
        }
    }
}
