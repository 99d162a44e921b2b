// The command that renames a file.
ghost use Rattle.std.specs.Prelude.{◌≡◌, ◌<◌, List, [], ◌∷◌, length, true, false, Err, IfErr, IsTrue, OnOk};
ghost use Rattle.file_formats.specs.FileNames.{name_view};
ghost use Rattle.vol_format.specs.Fits.{Fits};
ghost use Rattle.vol_format.specs.Accepted.{IsVolume};
ghost use Rattle.vol_format.specs.Directory.{entries, entry_of};
ghost use Rattle.a2_device.specs.Device.{OnlyReads, unit_at};
ghost use Rattle.edit_formats.specs.Edited.{HasNoSuchFile, HasChanged, IsOldOrChanged};
ghost use Rattle.edit_formats.specs.Refusal.{told_device};
ghost use Rattle.edit_formats.specs.Renamed.{HasFirst, HasFirstUnnamed, HasFirstBeside, HasFirstLocked};
ghost use Rattle.edit_formats.specs.Renamed.{IsRenameEdit, IsRenamable, IsWeighed, IsRenameTold};
ghost use Rattle.edit_formats.specs.Renamed.{IsRenameRefusal, IsEntryRefusal, with_new_name};
ghost use Rattle.vol_laws.specs.Writes.{Write};
ghost use Rattle.edit_formats.specs.Writes.{HasEdited};

use a2_device::Device;
use edit_formats::{EditError, EditableFormat, read_unit, write_unit};
use file_formats::{FileName, find};
use std::alloc::Allocator;
use vol_check::check;

// Writes a name, which a file may get, into its entry; the buffer has room for a unit.
fn write_name<D: Device, F: EditableFormat>(
    device: &mut D,
    format: &F,
    volume: &F::Volume,
    file: u32,
    unit: &mut [u8],
    new: &[u8],
) -> Result<(), EditError>
    requires size { (D.state device.old).unit_size ≡ (F.meaning format.now).unit_size }
    requires unit { length unit.old ≡ (D.state device.old).unit_size }
    requires places { (F.directory format.now volume.now).places ≡ (D.state device.old).places }
    requires file { file < entries (F.directory format.now volume.now) }
    requires name { (F.names format.now).may_have new.now ≡ true }

    ensures refused { IfErr result (λ error. error ≡ EditError.Device) }
    ensures edited { HasEdited (λ (writes : List Write). writes ≡ record {
      place = (entry_of (F.directory format.now volume.now) file).place;
      unit = (F.names format.now).with_name new.now (entry_of (F.directory format.now volume.now) file)
          (unit_at (D.state device.old).store (entry_of (F.directory format.now volume.now) file).place);
    } ∷ []) result (D.state device.old) (D.state device.new) }
{
    let place = format.entry_at(volume, file).place;
    read_unit(device, place, unit)?;
    format.put_name(volume, file, unit, new);
    write_unit(device, place, unit)
}

// Weighs whether the file of an entry may get a name.
fn weigh<D: Device, F: EditableFormat, A: Allocator + Copy>(
    alloc: A,
    device: &mut D,
    format: &F,
    volume: &F::Volume,
    file: u32,
    new: &[u8],
) -> Result<(), EditError>
    requires fits { Fits (F.meaning format.now) (D.state device.old) }
    requires file { file < entries (F.directory format.now volume.now) }

    ensures device { OnlyReads (told_device result) (D.state device.old) (D.state device.new) }
    ensures refused { IfErr result IsEntryRefusal }
    ensures name { OnOk result ((F.names format.now).may_have new.now ≡ true) }
    ensures weighed { IsTrue (D.state device.old).honest
        → (F.meaning format.now).Describes (D.state device.old).store (F.directory format.now volume.now)
        → IsWeighed (F.names format.now) (D.state device.old).store
        (F.directory format.now volume.now) file new.now result }
{
    if !format.may_have(new) {
        return Err(EditError::Name);
    }
    match format.has_beside(alloc, device, volume, file, new) {
        Ok(true) => return Err(EditError::Exists),
        Ok(false) => {}
        Err(error) => return Err(error),
    }
    if format.keeps_name(volume, file) {
        return Err(EditError::Locked);
    }
    Ok(())
}

// Renames the file of an entry that is a file's; the buffer has room for a unit.
fn rename_entry<D: Device, F: EditableFormat, A: Allocator + Copy>(
    alloc: A,
    device: &mut D,
    format: &F,
    volume: &F::Volume,
    file: u32,
    unit: &mut [u8],
    new: &[u8],
) -> Result<(), EditError>
    requires fits { Fits (F.meaning format.now) (D.state device.old) }
    requires unit { length unit.old ≡ (D.state device.old).unit_size }
    requires places { (F.directory format.now volume.now).places ≡ (D.state device.old).places }
    requires file { file < entries (F.directory format.now volume.now) }
    requires described { IsTrue (D.state device.old).honest
        → (F.meaning format.now).Describes (D.state device.old).store (F.directory format.now volume.now) }

    ensures refused { IfErr result IsEntryRefusal }
    ensures weighed { IsTrue (D.state device.old).honest → IsWeighed (F.names format.now) (D.state device.old).store
        (F.directory format.now volume.now) file new.now result }
    ensures edited { HasEdited (λ (writes : List Write). IsRenamable (F.names format.now) (D.state device.old).store
        (F.directory format.now volume.now) file new.now
        × (writes ≡ record {
          place = (entry_of (F.directory format.now volume.now) file).place;
          unit = (F.names format.now).with_name new.now (entry_of (F.directory format.now volume.now) file)
              (unit_at (D.state device.old).store (entry_of (F.directory format.now volume.now) file).place);
        } ∷ [])) result (D.state device.old) (D.state device.new) }
{
    match weigh(alloc, device, format, volume, file, new) {
        Ok(()) => write_name(device, format, volume, file, unit, new),
        Err(error) => Err(error),
    }
}

// Renames the first file with a name.
fn rename_first<D: Device, F: EditableFormat, A: Allocator + Copy>(
    alloc: A,
    device: &mut D,
    format: &F,
    name: FileName<'_>,
    new: &[u8],
) -> Result<(), EditError>
    requires fits { Fits (F.meaning format.now) (D.state device.old) }

    ensures edited { HasEdited (IsRenameEdit (F.meaning format.now) (F.files format.now) (F.names format.now)
        (D.state device.old).store (name_view name.entry) new.now)
        result (D.state device.old) (D.state device.new) }
    ensures refusals { IfErr result IsRenameRefusal }
    ensures check { IsTrue (D.state device.old).honest → result ≡ Err EditError.Check
        → IsVolume (F.meaning format.now) (D.state device.old).store → ⊥ }
    ensures not_found { IsTrue (D.state device.old).honest → result ≡ Err EditError.NotFound
        → HasNoSuchFile (F.meaning format.now) (F.files format.now) (D.state device.old).store (name_view name.entry) }
    ensures told { IsTrue (D.state device.old).honest
        → IsRenameTold (F.meaning format.now) (F.files format.now) (F.names format.now)
        (D.state device.old).store (name_view name.entry) new.now result }
{
    let mut unit = vec![in alloc; 0; device.unit()]?;
    let checked = check(alloc, device, format)?;
    let Some(file) = find(format, checked.volume(), name) else {
        return Err(EditError::NotFound);
    };
    rename_entry(
        alloc,
        device,
        format,
        checked.volume(),
        file,
        &mut unit,
        new,
    )
}

/// Renames the first file with a name: one write, of the unit that has its entry. The new name is the last of its
/// path, with no slash; it is stored as the format has it. An entry beside the file's is one of the same directory, of
/// a file or of a directory; the file's own is one of them.
///
/// # Errors
/// Of several the first in this order: `Check` where the volume is not accepted; `NotFound` where no file has the
/// name; `Name` where no file may get the new name; `Exists` where an entry beside the file's has it; `Locked` where
/// the file's entry keeps its name. `Device` where a read or the write fails; `Memory`.
pub fn rename<D: Device, F: EditableFormat, A: Allocator + Copy>(
    alloc: A,
    device: &mut D,
    format: &F,
    name: FileName<'_>,
    new: &[u8],
) -> Result<(), EditError>
    requires fits { Fits (F.meaning format.now) (D.state device.old) }

    // every device
    ensures edited { HasEdited (IsRenameEdit (F.meaning format.now) (F.files format.now) (F.names format.now)
        (D.state device.old).store (name_view name.entry) new.now)
        result (D.state device.old) (D.state device.new) }
    ensures refusals { IfErr result IsRenameRefusal }

    // an honest device
    ensures files { IsTrue (D.state device.old).honest → OnOk result (HasChanged (F.meaning format.now)
        (with_new_name (F.files format.now) (F.names format.now) (name_view name.entry) new.now)
        (D.state device.old).store (D.state device.new).store) }
    ensures renamable { IsTrue (D.state device.old).honest
        → OnOk result (HasFirst (F.meaning format.now) (F.files format.now) (D.state device.old).store
        (name_view name.entry) (λ directory file.
        IsRenamable (F.names format.now) (D.state device.old).store directory file new.now)) }
    ensures stopped { IsTrue (D.state device.old).honest → result ≡ Err EditError.Device
        → IsOldOrChanged (F.meaning format.now)
        (with_new_name (F.files format.now) (F.names format.now) (name_view name.entry) new.now)
        (D.state device.old).store (D.state device.new).store }
    ensures check { IsTrue (D.state device.old).honest → result ≡ Err EditError.Check
        → IsVolume (F.meaning format.now) (D.state device.old).store → ⊥ }
    ensures not_found { IsTrue (D.state device.old).honest → result ≡ Err EditError.NotFound
        → HasNoSuchFile (F.meaning format.now) (F.files format.now) (D.state device.old).store (name_view name.entry) }
    ensures name { IsTrue (D.state device.old).honest → result ≡ Err EditError.Name
        → HasFirstUnnamed (F.meaning format.now) (F.files format.now) (F.names format.now) (D.state device.old).store
        (name_view name.entry) new.now }
    ensures exists { IsTrue (D.state device.old).honest → result ≡ Err EditError.Exists
        → HasFirstBeside (F.meaning format.now) (F.files format.now) (F.names format.now)
        (D.state device.old).store (name_view name.entry) new.now }
    ensures locked { IsTrue (D.state device.old).honest → result ≡ Err EditError.Locked
        → HasFirstLocked (F.meaning format.now) (F.files format.now) (F.names format.now) (D.state device.old).store
        (name_view name.entry) new.now }
{
    rename_first(alloc, device, format, name, new)
}
