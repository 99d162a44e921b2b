// Why a volume is not opened.
ghost use Rattle.std.specs.Prelude.{◌≡◌};
ghost use Rattle.vol_mover.specs.Refused.{of_check, of_plan};

use move_plan::PlanError;
use std::alloc::{Allocator, Global};
use thiserror::Error;
use vol_check::{CheckError, Faults};

/// Why a volume is not opened.
#[derive(Debug, Drop, Error)]
pub enum OpenError<A: Allocator = Global> {
    #[error("the volume has faults")]
    Check(Faults<A>),
    #[error("{0} places are marked used and belong to no file")]
    Lost(u32),
    #[error("some part is misplaced, and each place has a part")]
    NoFreePlace,
    #[error("the device failed")]
    Device,
    #[error("memory ran out")]
    Memory,
}

impl<A: Allocator> From<CheckError<A>> for OpenError<A> {
    ghost from_gives = { λ error e. e ≡ of_check error };

    fn from(error: CheckError<A>) -> Self {
        match error {
            CheckError::Faults(faults) => OpenError::Check(faults),
            CheckError::Device => OpenError::Device,
            CheckError::Memory => OpenError::Memory,
        }
    }
}

impl<A: Allocator> From<PlanError> for OpenError<A> {
    ghost from_gives = { λ error e. e ≡ of_plan error };

    fn from(error: PlanError) -> Self {
        match error {
            PlanError::NoFreePlace => OpenError::NoFreePlace,
            PlanError::Memory => OpenError::Memory,
        }
    }
}
