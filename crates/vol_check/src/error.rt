// Why a volume is not accepted.
ghost use Rattle.std.specs.Prelude.{◌≡◌, slice_get};
ghost use Rattle.vol_check.specs.declared.error.CheckError.TheVariants.{Memory};
ghost use Rattle.vol_check.specs.Answer.{error_of};

use a2_device::{Fault, Stop};
use std::alloc::{AllocError, AllocFailed, Allocator, Global};
use std::marker::Model;
use thiserror::Error;

/// The faults of a volume, in the order of its parts, and of which file each is.
#[derive(Debug, Drop)]
pub struct Faults<A: Allocator = Global> {
    faults: Vec<Fault, A>,
    files: Vec<u32, A>,
}

impl<A: Allocator> Model for Faults<A> {
    ghost use Rattle.vol_check.specs.FaultFiles.{FaultList};

    ghost Value = { FaultList };

    ghost view = { λ f. record { faults = f.faults.items; files = f.files.items } };
}

impl<A: Allocator> Faults<A> {
    /// Faults, and the numbers of the entries whose files they are of.
    pub(crate) fn of_files(faults: Vec<Fault, A>, files: Vec<u32, A>) -> Faults<A>
        ensures { result ≡ record { faults = faults.items; files = files.items } }
    {
        Faults { faults, files }
    }

    /// The faults.
    pub fn as_slice(&self) -> &[Fault]
        ensures { result.now ≡ self.now.faults }
    {
        self.faults.as_slice()
    }

    /// The number of the entry whose file the fault of a number is of; `None` for a fault of the header, the directory
    /// or the map.
    pub fn file_of(&self, number: usize) -> Option<u32>
        ensures { result ≡ slice_get self.now.files number }
    {
        self.files.get(number).copied()
    }
}

/// Why a volume is not accepted.
#[derive(Debug, Drop, Error)]
pub enum CheckError<A: Allocator = Global> {
    #[error("the volume has faults")]
    Faults(Faults<A>),
    #[error("the device failed")]
    Device,
    #[error("memory ran out")]
    Memory,
}

impl<A: Allocator> From<AllocError> for CheckError<A> {
    ghost from_gives = { λ _ e. e ≡ Memory };

    fn from(_: AllocError) -> Self {
        CheckError::Memory
    }
}

impl<T: Drop, A: Allocator> From<AllocFailed<T>> for CheckError<A> {
    ghost from_gives = { λ _ e. e ≡ Memory };

    fn from(_: AllocFailed<T>) -> Self {
        CheckError::Memory
    }
}

impl<A: Allocator> From<Stop> for CheckError<A> {
    ghost from_gives = { λ stop e. e ≡ error_of stop };

    fn from(stop: Stop) -> Self {
        match stop {
            Stop::Device => CheckError::Device,
            Stop::Memory => CheckError::Memory,
        }
    }
}
