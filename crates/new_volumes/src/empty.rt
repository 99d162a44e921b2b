// Whether what was made is an empty volume.
ghost use Rattle.std.specs.Prelude.{◌≡◌, ◌⊎◌, ℕ, IsTrue, OnOk, IfErr};
ghost use Rattle.a2_device.specs.Device.{DeviceState, FailsRead};
ghost use Rattle.vol_format.specs.Fits.{Fits};
ghost use Rattle.new_volumes.specs.Empty.{IsEmptyVolume};

use crate::NewVolumeError;
use a2_device::Device;
use std::alloc::Global;
use vol_check::{CheckError, check};
use vol_format::Format;

// Accepts a volume without an entry, all of whose available places are free, on a device that reads each of its units.
pub(crate) fn require_empty<D: Device, F: Format>(
    alloc: Global,
    device: &mut D,
    format: &F,
) -> Result<(), NewVolumeError>
    requires fits { Fits (F.meaning format.now) (D.state device.old) }
    requires honest { IsTrue (D.state device.old).honest }
    requires readable { (place : ℕ) (state : DeviceState) → FailsRead place (D.state device.old) state → ⊥ }
    ensures empty { OnOk result (IsEmptyVolume (F.meaning format.now) (D.state device.old).store) }
    ensures refused { IfErr result (λ e. (e ≡ NewVolumeError.Memory)
        ⊎ ((e ≡ NewVolumeError.Refused) × ¬ IsEmptyVolume (F.meaning format.now) (D.state device.old).store)) }
{
    let checked = match check(alloc, device, format) {
        Ok(checked) => checked,
        Err(CheckError::Faults(_)) => return Err(NewVolumeError::Refused),
        Err(CheckError::Device) => return Err(NewVolumeError::Refused),
        Err(CheckError::Memory) => return Err(NewVolumeError::Memory),
    };
    if format.entries(checked.volume()) != 0 {
        return Err(NewVolumeError::Refused);
    }
    if !checked.lost().is_empty() {
        return Err(NewVolumeError::Refused);
    }
    Ok(())
}
