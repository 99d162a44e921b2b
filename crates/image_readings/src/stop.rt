// What is found where nothing is found of a volume.
ghost use Rattle.std.specs.Prelude.{◌≡◌, IfOk};
ghost use Rattle.a2_device.specs.Device.{DeviceState};
ghost use Rattle.image_readings.specs.Found.{Stops};
ghost use Rattle.image_readings.specs.Readings.{
  IsNoVolume,
  finding_of as finding_for,
  header_place as place_for,
  plain_meaning,
};

use crate::reading::Finding;
use a2_device::{Fault, WalkError};
use dos_vtoc::VTOC_PLACE;
use shop_jobs::FileSystem;
use std::alloc::AllocError;

/// The block with the header of a ProDOS volume.
const VOLUME_KEY: u32 = 2;

// Where the header of a volume stands.
fn header_place(file_system: FileSystem) -> u32
    ensures { result ≡ place_for file_system }
{
    match file_system {
        FileSystem::Dos => VTOC_PLACE,
        FileSystem::Prodos => VOLUME_KEY,
    }
}

// What is found where the header, the directory or the map's pointer has a fault.
fn finding_of(file_system: FileSystem, fault: Fault) -> Finding
    ensures { result ≡ finding_for file_system fault }
{
    match fault {
        Fault::Geometry(place) if place == header_place(file_system) => Finding::Unreadable,
        _ => Finding::Broken,
    }
}

/// What is found where a walk stopped.
///
/// # Errors
/// Want of memory alone.
pub fn finding_at(file_system: FileSystem, stop: WalkError) -> Result<Finding, AllocError>
    ensures { (device : DeviceState) → Stops (plain_meaning file_system) device stop
        → IfOk result (IsNoVolume file_system device) }
{
    match stop {
        WalkError::Fault(fault) => Ok(finding_of(file_system, fault)),
        WalkError::Device => Ok(Finding::Unreadable),
        WalkError::Memory => Err(AllocError),
    }
}
