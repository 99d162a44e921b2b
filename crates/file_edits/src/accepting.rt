// The accepted volume of a device.
ghost use Rattle.std.specs.Prelude.{◌≡◌, Err, IfErr, IfOk, IsTrue};
ghost use Rattle.a2_device.specs.Device.{OnlyReads};
ghost use Rattle.vol_format.specs.Accepted.{IsAccepted, IsVolume};
ghost use Rattle.vol_format.specs.Fits.{Fits};
ghost use Rattle.edit_formats.specs.Refusal.{told_device};
ghost use Rattle.edit_formats.specs.Renamed.{IsReadRefusal};

use crate::acceptance::Acceptance;
use a2_device::Device;
use edit_formats::{EditError, refusal};
use std::alloc::Allocator;
use vol_check::check;
use vol_format::Format;

// The volume, if a check accepts it.
fn checked_volume<D: Device, F: Format, A: Allocator + Copy>(
    alloc: A,
    device: &mut D,
    format: &F,
) -> Result<F::Volume, EditError>
    requires fits { Fits (F.meaning format.now) (D.state device.old) }

    ensures device { OnlyReads (told_device result) (D.state device.old) (D.state device.new) }
    ensures refused { IfErr result IsReadRefusal }
    ensures places { IfOk result (λ volume. (F.directory format.now volume).places ≡ (D.state device.old).places) }
    ensures accepted { IsTrue (D.state device.old).honest
        → IfOk result (λ volume.
        IsAccepted (F.meaning format.now) (F.directory format.now volume) (D.state device.old).store) }
    ensures check { IsTrue (D.state device.old).honest → result ≡ Err EditError.Check
        → IsVolume (F.meaning format.now) (D.state device.old).store → ⊥ }
{
    let checked = check(alloc, device, format)?;
    let (volume, ..) = checked.into_parts();
    Ok(volume)
}

// A volume of which it is known that it is accepted: its header, its directory and its map are read, and no part.
fn known_volume<D: Device, F: Format>(device: &mut D, format: &F) -> Result<F::Volume, EditError>
    requires fits { Fits (F.meaning format.now) (D.state device.old) }
    requires accepted { IsTrue (D.state device.old).honest
        → IsVolume (F.meaning format.now) (D.state device.old).store }

    ensures device { OnlyReads (told_device result) (D.state device.old) (D.state device.new) }
    ensures refused { IfErr result IsReadRefusal }
    ensures places { IfOk result (λ volume. (F.directory format.now volume).places ≡ (D.state device.old).places) }
    ensures accepted { IsTrue (D.state device.old).honest
        → IfOk result (λ volume.
        IsAccepted (F.meaning format.now) (F.directory format.now volume) (D.state device.old).store) }
    ensures check { IsTrue (D.state device.old).honest → result ≡ Err EditError.Check
        → IsVolume (F.meaning format.now) (D.state device.old).store → ⊥ }
{
    match format.volume(device) {
        Ok(volume) => Ok(volume),
        Err(error) => Err(refusal(error)),
    }
}

/// The accepted volume of a device: its header, its directory and its map. It is checked where it is not known to be
/// accepted.
///
/// # Errors
/// `Check` where it is not accepted; `Device` where a read fails; `Memory`.
pub fn accepted_volume<D: Device, F: Format, A: Allocator + Copy>(
    alloc: A,
    device: &mut D,
    format: &F,
    acceptance: Acceptance,
) -> Result<F::Volume, EditError>
    requires fits { Fits (F.meaning format.now) (D.state device.old) }
    requires accepted { acceptance ≡ Acceptance.Known → IsTrue (D.state device.old).honest
        → IsVolume (F.meaning format.now) (D.state device.old).store }

    ensures device { OnlyReads (told_device result) (D.state device.old) (D.state device.new) }
    ensures refused { IfErr result IsReadRefusal }
    ensures places { IfOk result (λ volume. (F.directory format.now volume).places ≡ (D.state device.old).places) }
    ensures accepted { IsTrue (D.state device.old).honest
        → IfOk result (λ volume.
        IsAccepted (F.meaning format.now) (F.directory format.now volume) (D.state device.old).store) }
    ensures check { IsTrue (D.state device.old).honest → result ≡ Err EditError.Check
        → IsVolume (F.meaning format.now) (D.state device.old).store → ⊥ }
{
    match acceptance {
        Acceptance::Unknown => checked_volume(alloc, device, format),
        Acceptance::Known => known_volume(device, format),
    }
}
