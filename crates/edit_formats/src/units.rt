// Units of the device that are read and written.
ghost use Rattle.std.specs.Prelude.{◌≡◌, ◌<◌, length, OnOk, IfOk, IfErr, IsErr, IsTrue, Err, is_err};
ghost use Rattle.a2_device.specs.Device.{IsSameDevice, OnlyReads, faults_after, unit_at, written};
ghost use Rattle.edit_formats.specs.Refusal.{told_device, IsPrepareRefusal};
ghost use Rattle.edit_formats.specs.Writes.{RefusesWrite};

use crate::EditError;
use a2_device::Device;
use std::alloc::Allocator;

/// Reads a unit.
///
/// # Errors
/// `Device` alone.
pub fn read_unit<D: Device>(device: &mut D, place: u32, unit: &mut [u8]) -> Result<(), EditError>
    requires place { place < (D.state device.old).places }
    requires unit { length unit.old ≡ (D.state device.old).unit_size }
    ensures device { OnlyReads (is_err result) (D.state device.old) (D.state device.new) }
    ensures error { IsErr result → result ≡ Err EditError.Device }
    ensures read { IsTrue (D.state device.old).honest
        → OnOk result (unit.new ≡ unit_at (D.state device.old).store place) }
{
    device.read(place, unit).map_err(|_| EditError::Device)
}

/// A copy of a unit.
///
/// # Errors
/// `Device` where the unit can't be read; `Memory`.
pub fn copy_unit<D: Device, A: Allocator>(
    alloc: A,
    device: &mut D,
    place: u32,
) -> Result<Vec<u8, A>, EditError>
    requires { place < (D.state device.old).places }
    ensures device { OnlyReads (told_device result) (D.state device.old) (D.state device.new) }
    ensures refused { IfErr result IsPrepareRefusal }
    ensures size { IfOk result (λ unit. length unit.items ≡ (D.state device.old).unit_size) }
    ensures read { IsTrue (D.state device.old).honest
        → IfOk result (λ unit. unit.items ≡ unit_at (D.state device.old).store place) }
{
    let mut unit = vec![in alloc; 0; device.unit()]?;
    read_unit(device, place, &mut unit)?;
    Ok(unit)
}

/// Writes a unit.
///
/// # Errors
/// `Device` alone.
pub fn write_unit<D: Device>(device: &mut D, place: u32, unit: &[u8]) -> Result<(), EditError>
    requires place { place < (D.state device.old).places }
    requires unit { length unit.now ≡ (D.state device.old).unit_size }
    ensures device { IsSameDevice (D.state device.old) (D.state device.new) }
    ensures faults { (D.state device.new).faults ≡ faults_after result (D.state device.old).faults }
    ensures error { IsErr result → result ≡ Err EditError.Device }
    ensures written { IsTrue (D.state device.old).honest
        → OnOk result (D.state device.new ≡ written place unit.now (D.state device.old)) }
    ensures refused { IsTrue (D.state device.old).honest → IsErr result
        → RefusesWrite (record { place = place; unit = unit.now }) (D.state device.old) (D.state device.new) }
{
    device.write(place, unit).map_err(|_| EditError::Device)
}
