// The command that deletes a file.
ghost use Rattle.std.specs.Prelude.{◌≡◌, ◌≢◌, ◌<◌, false, length, map, All, Err, IfErr, IfOk, IsTrue, OnOk};
ghost use Rattle.file_formats.specs.FileNames.{name_view};
ghost use Rattle.a2_device.specs.Device.{OnlyReads};
ghost use Rattle.a2_device.specs.declared.part.Part.{Part};
ghost use Rattle.vol_format.specs.Fits.{Fits};
ghost use Rattle.vol_format.specs.Accepted.{IsAccepted, IsVolume};
ghost use Rattle.vol_format.specs.Directory.{entries, entry_of, is_directory};
ghost use Rattle.vol_format.specs.Reach.{IsPartsOf};
ghost use Rattle.edit_formats.specs.declared.writes.Prepared.{Prepared};
ghost use Rattle.vol_laws.specs.Deletion.{IsDeletion};
ghost use Rattle.edit_formats.specs.Deleted.{
  IsDeleteEdit,
  IsDeleteRefusal,
  IsOldOrErased,
  HasFirstProtected,
  HasFirstUnprotected,
  IsDeleteTold,
  places_of_file,
};
ghost use Rattle.edit_formats.specs.Edited.{HasChanged, HasNoSuchFile};
ghost use Rattle.edit_formats.specs.Lists.{without_named};
ghost use Rattle.edit_formats.specs.Prepared.{AreOfSize, GoBelow, write_of};
ghost use Rattle.edit_formats.specs.Refusal.{told_device};
ghost use Rattle.edit_formats.specs.Renamed.{IsReadRefusal};
ghost use Rattle.edit_formats.specs.Writes.{HasEdited};

use a2_device::{Device, Part};
use edit_formats::{EditError, EditableFormat, Prepared, mark_all, write_all};
use file_formats::{FileName, find};
use std::alloc::{AllocError, Allocator};
use vol_check::check;

// The places of those parts that have the number of a file.
fn places_of_file<A: Allocator>(
    alloc: A,
    parts: &[Part],
    file: u32,
) -> Result<Vec<u32, A>, AllocError>
    ensures { IfOk result (λ places. places.items ≡ places_of_file file parts.now) }
{
    let mut places = Vec::new(alloc);
    for part in parts {
        if part.file == file {
            places.push(part.place)?;
        }
    }
    Ok(places)
}

// The writes that delete the file of an entry, of an accepted volume with these parts: its entry is erased, then its
// places are marked free.
fn deletion<D: Device, F: EditableFormat, A: Allocator + Copy>(
    alloc: A,
    device: &mut D,
    format: &F,
    volume: &F::Volume,
    parts: &[Part],
    file: u32,
) -> Result<Vec<Prepared<A>, A>, EditError>
    requires fits { Fits (F.meaning format.now) (D.state device.old) }
    requires places { (F.directory format.now volume.now).places ≡ (D.state device.old).places }
    requires file { file < entries (F.directory format.now volume.now) }
    requires is_file { is_directory (entry_of (F.directory format.now volume.now) file) ≡ false }
    requires parts { All (λ (part : Part). part.place < (F.directory format.now volume.now).places) parts.now }

    // every device
    ensures device { OnlyReads (told_device result) (D.state device.old) (D.state device.new) }
    ensures refused { IfErr result IsReadRefusal }
    ensures inside { IfOk result (λ writes. GoBelow (D.state device.old).places writes.items) }
    ensures sizes { IfOk result (λ writes. AreOfSize (D.state device.old).unit_size writes.items) }
    ensures few { IfOk result (λ writes. length (map write_of writes.items) < 18446744073709551616) }

    // an honest device with an accepted volume
    ensures deletes { IsTrue (D.state device.old).honest
        → IsAccepted (F.meaning format.now) (F.directory format.now volume.now) (D.state device.old).store
        → IsPartsOf (F.meaning format.now) (F.directory format.now volume.now) (D.state device.old).store parts.now
        → IfOk result (λ writes. (deletion : IsDeletion (F.meaning format.now) (F.directory format.now volume.now) file
        (D.state device.old).store (map write_of writes.items))
        × (F.erasures format.now).Erases (D.state device.old).store
        (F.directory format.now volume.now) file deletion.system) }
    ensures described { IsTrue (D.state device.old).honest
        → (F.meaning format.now).Describes (D.state device.old).store (F.directory format.now volume.now)
        → result ≢ Err EditError.Check }
{
    let places = places_of_file(alloc, parts, file)?;
    let erased = format.erase(alloc, device, volume, file)?;
    mark_all(
        alloc,
        device,
        format,
        volume,
        places.as_slice(),
        true,
        erased,
    )
}

// Deletes the first file with a name.
fn delete_first<D: Device, F: EditableFormat, A: Allocator + Copy>(
    alloc: A,
    device: &mut D,
    format: &F,
    name: FileName<'_>,
) -> Result<(), EditError>
    requires fits { Fits (F.meaning format.now) (D.state device.old) }

    ensures edited { HasEdited (IsDeleteEdit (F.meaning format.now) (F.files format.now) (F.erasures format.now)
        (D.state device.old).store (name_view name.entry))
        result (D.state device.old) (D.state device.new) }
    ensures refusals { IfErr result IsDeleteRefusal }
    ensures check { IsTrue (D.state device.old).honest → result ≡ Err EditError.Check
        → IsVolume (F.meaning format.now) (D.state device.old).store → ⊥ }
    ensures not_found { IsTrue (D.state device.old).honest → result ≡ Err EditError.NotFound
        → HasNoSuchFile (F.meaning format.now) (F.files format.now) (D.state device.old).store (name_view name.entry) }
    ensures told { IsTrue (D.state device.old).honest
        → IsDeleteTold (F.meaning format.now) (F.files format.now) (F.erasures format.now)
        (D.state device.old).store (name_view name.entry) result }
{
    let checked = check(alloc, device, format)?;
    let Some(file) = find(format, checked.volume(), name) else {
        return Err(EditError::NotFound);
    };
    if format.protects_file(checked.volume(), file) {
        return Err(EditError::Locked);
    }
    let writes = deletion(
        alloc,
        device,
        format,
        checked.volume(),
        checked.parts(),
        file,
    )?;
    write_all(device, writes.as_slice())
}

/// Deletes the first file with a name: its entry is erased, and in ProDOS its directory counts one file less;
/// then its places are marked free, unit by unit of the map. All writes are prepared before the first is made.
///
/// # Errors
/// Of several the first in this order: `Check` where the volume is not accepted; `NotFound` where no file has the
/// name; `Locked` where the file's entry does not let it be deleted. `Device` where a read or a write fails; `Memory`.
pub fn delete<D: Device, F: EditableFormat, A: Allocator + Copy>(
    alloc: A,
    device: &mut D,
    format: &F,
    name: FileName<'_>,
) -> Result<(), EditError>
    requires fits { Fits (F.meaning format.now) (D.state device.old) }

    // every device
    ensures edited { HasEdited (IsDeleteEdit (F.meaning format.now) (F.files format.now) (F.erasures format.now)
        (D.state device.old).store (name_view name.entry))
        result (D.state device.old) (D.state device.new) }
    ensures refusals { IfErr result IsDeleteRefusal }

    // an honest device
    ensures files { IsTrue (D.state device.old).honest → OnOk result (HasChanged (F.meaning format.now)
        (without_named (F.files format.now) (name_view name.entry)) (D.state device.old).store
        (D.state device.new).store) }
    ensures unprotected { IsTrue (D.state device.old).honest
        → OnOk result (HasFirstUnprotected (F.meaning format.now) (F.files format.now) (F.erasures format.now)
        (D.state device.old).store (name_view name.entry)) }
    ensures stopped { IsTrue (D.state device.old).honest → result ≡ Err EditError.Device
        → IsOldOrErased (F.meaning format.now) (F.files format.now) (name_view name.entry) (D.state device.old).store
        (D.state device.new).store }
    ensures check { IsTrue (D.state device.old).honest → result ≡ Err EditError.Check
        → IsVolume (F.meaning format.now) (D.state device.old).store → ⊥ }
    ensures not_found { IsTrue (D.state device.old).honest → result ≡ Err EditError.NotFound
        → HasNoSuchFile (F.meaning format.now) (F.files format.now) (D.state device.old).store (name_view name.entry) }
    ensures locked { IsTrue (D.state device.old).honest → result ≡ Err EditError.Locked
        → HasFirstProtected (F.meaning format.now) (F.files format.now) (F.erasures format.now)
        (D.state device.old).store (name_view name.entry) }
{
    delete_first(alloc, device, format, name)
}
