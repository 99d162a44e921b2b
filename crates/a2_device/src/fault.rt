// What a walk over a volume can find wrong.
use std::alloc::AllocError;
use thiserror::Error;

/// What is wrong with a volume, and at which place.
#[derive(Clone, Copy, Debug, PartialEq, Eq)]
pub enum Fault {
    /// The header has a field that no volume of this kind has.
    Geometry(u32),
    /// A link of the catalog leads to no catalog sector, or to one already met; the unit that holds the link.
    CatalogLink(u32),
    /// A link of the directory leads to no directory block, or to one already met; the block that holds the link.
    DirLink(u32),
    /// The header's pointer to the map leads to no block for it; the block that holds the pointer.
    MapPointer(u32),
    /// A file's entry has a storage type that is not read; the unit that holds the entry.
    StorageType(u32),
    /// A pointer names no place of the volume; the unit that holds the pointer.
    OutOfRange(u32),
    /// A part of a file stands on a place of the system; that place.
    InSystem(u32),
    /// Two parts stand on one place; that place.
    Shared(u32),
    /// A part of a file stands on a place that is marked free; that place.
    MarkedFree(u32),
}

/// Why a walk over a volume ended.
#[derive(Clone, Copy, Debug, PartialEq, Eq, Error)]
pub enum WalkError {
    #[error("the volume has a fault")]
    Fault(Fault),
    #[error("the device failed")]
    Device,
    #[error("memory ran out")]
    Memory,
}

impl From<AllocError> for WalkError {
    ghost use Rattle.std.specs.Prelude.{◌≡◌};
    ghost use Rattle.a2_device.specs.declared.fault.WalkError.TheVariants.{Memory};

    ghost from_gives = { λ _ e. e ≡ Memory };

    fn from(_: AllocError) -> Self {
        WalkError::Memory
    }
}
