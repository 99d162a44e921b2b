// The commands that lock and unlock a file.
ghost use Rattle.std.specs.Prelude.{◌≡◌, ◌<◌, List, [], ◌∷◌, length, true, false, Err, IfErr, IsTrue, OnOk};
ghost use Rattle.file_formats.specs.FileNames.{name_view};
ghost use Rattle.vol_format.specs.Fits.{Fits};
ghost use Rattle.vol_format.specs.Accepted.{IsVolume};
ghost use Rattle.vol_format.specs.Directory.{entries, entry_of};
ghost use Rattle.a2_device.specs.Device.{unit_at};
ghost use Rattle.edit_formats.specs.Edited.{IsLockEdit, HasNoSuchFile, HasChanged, IsOldOrChanged};
ghost use Rattle.edit_formats.specs.Lists.{with_lock_on};
ghost use Rattle.edit_formats.specs.Refusal.{IsLockRefusal};
ghost use Rattle.vol_laws.specs.Writes.{Write};
ghost use Rattle.edit_formats.specs.Writes.{HasEdited};

use a2_device::Device;
use edit_formats::{EditError, EditableFormat, read_unit, write_unit};
use file_formats::{FileName, find};
use std::alloc::Allocator;
use vol_check::check;

// Locks or unlocks the file of an entry that is a file's; the buffer has room for a unit.
fn write_lock<D: Device, F: EditableFormat>(
    device: &mut D,
    format: &F,
    volume: &F::Volume,
    file: u32,
    unit: &mut [u8],
    on: bool,
) -> Result<(), EditError>
    requires size { (D.state device.old).unit_size ≡ (F.meaning format.now).unit_size }
    requires unit { length unit.old ≡ (D.state device.old).unit_size }
    requires places { (F.directory format.now volume.now).places ≡ (D.state device.old).places }
    requires file { file < entries (F.directory format.now volume.now) }

    ensures refused { IfErr result (λ error. error ≡ EditError.Device) }
    ensures edited { HasEdited (λ (writes : List Write). writes ≡ record {
      place = (entry_of (F.directory format.now volume.now) file).place;
      unit = (F.edits format.now).with_lock on (entry_of (F.directory format.now volume.now) file)
          (unit_at (D.state device.old).store (entry_of (F.directory format.now volume.now) file).place);
    } ∷ []) result (D.state device.old) (D.state device.new) }
{
    let place = format.entry_at(volume, file).place;
    read_unit(device, place, unit)?;
    format.put_lock(volume, file, unit, on);
    write_unit(device, place, unit)
}

// Locks or unlocks the first file with a name.
fn relock<D: Device, F: EditableFormat, A: Allocator + Copy>(
    alloc: A,
    device: &mut D,
    format: &F,
    name: FileName<'_>,
    on: bool,
) -> Result<(), EditError>
    requires fits { Fits (F.meaning format.now) (D.state device.old) }

    ensures edited { HasEdited (IsLockEdit (F.meaning format.now) (F.files format.now) (F.edits format.now)
        (D.state device.old).store (name_view name.entry) on)
        result (D.state device.old) (D.state device.new) }
    ensures refusals { IfErr result IsLockRefusal }
    ensures check { IsTrue (D.state device.old).honest → result ≡ Err EditError.Check
        → IsVolume (F.meaning format.now) (D.state device.old).store → ⊥ }
    ensures not_found { IsTrue (D.state device.old).honest → result ≡ Err EditError.NotFound
        → HasNoSuchFile (F.meaning format.now) (F.files format.now) (D.state device.old).store (name_view name.entry) }
{
    let mut unit = vec![in alloc; 0; device.unit()]?;
    let checked = check(alloc, device, format)?;
    let Some(file) = find(format, checked.volume(), name) else {
        return Err(EditError::NotFound);
    };
    write_lock(device, format, checked.volume(), file, &mut unit, on)
}

/// Locks the first file with a name: one write, of the unit that has its entry. A file that is locked stays so.
///
/// # Errors
/// `Check` where the volume is not accepted; `NotFound` where no file has the name; `Device` where a read or the
/// write fails; `Memory`.
pub fn lock<D: Device, F: EditableFormat, A: Allocator + Copy>(
    alloc: A,
    device: &mut D,
    format: &F,
    name: FileName<'_>,
) -> Result<(), EditError>
    requires fits { Fits (F.meaning format.now) (D.state device.old) }

    // every device
    ensures edited { HasEdited (IsLockEdit (F.meaning format.now) (F.files format.now) (F.edits format.now)
        (D.state device.old).store (name_view name.entry) true)
        result (D.state device.old) (D.state device.new) }
    ensures refusals { IfErr result IsLockRefusal }

    // an honest device
    ensures files { IsTrue (D.state device.old).honest → OnOk result (HasChanged (F.meaning format.now)
        (with_lock_on (F.files format.now) (F.edits format.now) (name_view name.entry) true) (D.state device.old).store
        (D.state device.new).store) }
    ensures stopped { IsTrue (D.state device.old).honest → result ≡ Err EditError.Device
        → IsOldOrChanged (F.meaning format.now)
        (with_lock_on (F.files format.now) (F.edits format.now) (name_view name.entry) true) (D.state device.old).store
        (D.state device.new).store }
    ensures check { IsTrue (D.state device.old).honest → result ≡ Err EditError.Check
        → IsVolume (F.meaning format.now) (D.state device.old).store → ⊥ }
    ensures not_found { IsTrue (D.state device.old).honest → result ≡ Err EditError.NotFound
        → HasNoSuchFile (F.meaning format.now) (F.files format.now) (D.state device.old).store (name_view name.entry) }
{
    relock(alloc, device, format, name, true)
}

/// Unlocks the first file with a name: one write, of the unit that has its entry. A file that is not locked stays so.
///
/// # Errors
/// As of `lock`.
pub fn unlock<D: Device, F: EditableFormat, A: Allocator + Copy>(
    alloc: A,
    device: &mut D,
    format: &F,
    name: FileName<'_>,
) -> Result<(), EditError>
    requires fits { Fits (F.meaning format.now) (D.state device.old) }

    // every device
    ensures edited { HasEdited (IsLockEdit (F.meaning format.now) (F.files format.now) (F.edits format.now)
        (D.state device.old).store (name_view name.entry) false)
        result (D.state device.old) (D.state device.new) }
    ensures refusals { IfErr result IsLockRefusal }

    // an honest device
    ensures files { IsTrue (D.state device.old).honest → OnOk result (HasChanged (F.meaning format.now)
        (with_lock_on (F.files format.now) (F.edits format.now) (name_view name.entry) false) (D.state device.old).store
        (D.state device.new).store) }
    ensures stopped { IsTrue (D.state device.old).honest → result ≡ Err EditError.Device
        → IsOldOrChanged (F.meaning format.now)
        (with_lock_on (F.files format.now) (F.edits format.now) (name_view name.entry) false) (D.state device.old).store
        (D.state device.new).store }
    ensures check { IsTrue (D.state device.old).honest → result ≡ Err EditError.Check
        → IsVolume (F.meaning format.now) (D.state device.old).store → ⊥ }
    ensures not_found { IsTrue (D.state device.old).honest → result ≡ Err EditError.NotFound
        → HasNoSuchFile (F.meaning format.now) (F.files format.now) (D.state device.old).store (name_view name.entry) }
{
    relock(alloc, device, format, name, false)
}
