// The command that reclaims lost places.
ghost use Rattle.std.specs.Prelude.{◌≡◌, ◌↔◌, ◌<◌, ℕ, length, map, All, Contains, Err, IfErr, IfOk, IsTrue, OnOk};
ghost use Rattle.a2_device.specs.Device.{OnlyReads};
ghost use Rattle.vol_format.specs.Fits.{Fits};
ghost use Rattle.vol_format.specs.Accepted.{IsVolume};
ghost use Rattle.vol_format.specs.Standing.{IsLost};
ghost use Rattle.edit_formats.specs.Prepared.{AreOfSize, GoBelow, write_of};
ghost use Rattle.edit_formats.specs.Refusal.{told_device, IsPrepareRefusal};
ghost use Rattle.edit_formats.specs.Writes.{HasEdited};
ghost use Rattle.file_edits.specs.Reclaimed.{
  IsReclaiming,
  IsReclaimEdit,
  IsReclaimRefusal,
  HasReclaimed,
  IsOldOrReclaimed,
};

use a2_device::Device;
use edit_formats::{EditError, Prepared, mark_all, write_all};
use std::alloc::Allocator;
use vol_check::check;
use vol_format::WritableFormat;

// The writes that mark the lost places of a volume free.
fn release_lost<D: Device, F: WritableFormat, A: Allocator + Copy>(
    alloc: A,
    device: &mut D,
    format: &F,
    volume: &F::Volume,
    lost: &[u32],
) -> Result<Vec<Prepared<A>, A>, EditError>
    requires fits { Fits (F.meaning format.now) (D.state device.old) }
    requires places { (F.directory format.now volume.now).places ≡ (D.state device.old).places }
    requires lost { All (λ place. place < (F.directory format.now volume.now).places) lost.now }

    // every device
    ensures device { OnlyReads (told_device result) (D.state device.old) (D.state device.new) }
    ensures refused { IfErr result IsPrepareRefusal }
    ensures inside { IfOk result (λ writes. GoBelow (D.state device.old).places writes.items) }
    ensures sizes { IfOk result (λ writes. AreOfSize (D.state device.old).unit_size writes.items) }
    ensures few { IfOk result (λ writes. length (map write_of writes.items) < 18446744073709551616) }

    // an honest device, and the lost places of its volume
    ensures reclaims { IsTrue (D.state device.old).honest
        → ((place : ℕ) → Contains lost.now place
        ↔ IsLost (F.meaning format.now) (F.directory format.now volume.now) (D.state device.old).store place)
        → IfOk result (λ writes. IsReclaiming (F.meaning format.now) (F.directory format.now volume.now)
        (D.state device.old).store (map write_of writes.items)) }
{
    mark_all(alloc, device, format, volume, lost, true, Vec::new(alloc))
}

// Marks the lost places free.
fn reclaim_lost<D: Device, F: WritableFormat, A: Allocator + Copy>(
    alloc: A,
    device: &mut D,
    format: &F,
) -> Result<(), EditError>
    requires fits { Fits (F.meaning format.now) (D.state device.old) }

    ensures edited { HasEdited (IsReclaimEdit (F.meaning format.now) (D.state device.old).store)
        result (D.state device.old) (D.state device.new) }
    ensures refusals { IfErr result IsReclaimRefusal }
    ensures check { IsTrue (D.state device.old).honest → result ≡ Err EditError.Check
        → IsVolume (F.meaning format.now) (D.state device.old).store → ⊥ }
{
    let checked = check(alloc, device, format)?;
    let writes = release_lost(alloc, device, format, checked.volume(), checked.lost())?;
    write_all(device, writes.as_slice())
}

/// Marks the lost places of a volume free, those that are marked used and that no part of a file has, and changes
/// nothing else: one write for each unit of the map that has marks of them, in rising order. With nothing lost there is
/// no write. All writes are prepared before the first is made.
///
/// # Errors
/// `Check` where the volume is not accepted; `Device` where a read or a write fails; `Memory`, before the first write
/// alone.
pub fn reclaim<D: Device, F: WritableFormat, A: Allocator + Copy>(
    alloc: A,
    device: &mut D,
    format: &F,
) -> Result<(), EditError>
    requires fits { Fits (F.meaning format.now) (D.state device.old) }

    // every device
    ensures edited { HasEdited (IsReclaimEdit (F.meaning format.now) (D.state device.old).store)
        result (D.state device.old) (D.state device.new) }
    ensures refusals { IfErr result IsReclaimRefusal }

    // an honest device
    ensures reclaimed { IsTrue (D.state device.old).honest
        → OnOk result (HasReclaimed (F.meaning format.now) (D.state device.old).store (D.state device.new).store) }
    ensures stopped { IsTrue (D.state device.old).honest → result ≡ Err EditError.Device
        → IsOldOrReclaimed (F.meaning format.now) (D.state device.old).store (D.state device.new).store }
    ensures check { IsTrue (D.state device.old).honest → result ≡ Err EditError.Check
        → IsVolume (F.meaning format.now) (D.state device.old).store → ⊥ }
{
    reclaim_lost(alloc, device, format)
}
