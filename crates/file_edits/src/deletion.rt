// What deleting a file leaves of an honest device.
ghost use Rattle.std.specs.Prelude.{
  ◌≡◌,
  ◌<◌,
  ℕ,
  Bool,
  true,
  List,
  All,
  Contains,
  Result,
  Err,
  IsTrue,
  OnOk,
  length,
  map,
  ◌++◌,
};
ghost use Rattle.file_formats.specs.FileNames.{FileNameView};
ghost use Rattle.a2_device.specs.Device.{DeviceState};
ghost use Rattle.vol_format.specs.Directory.{Directory, entries};
ghost use Rattle.dos_format.specs.Dos.{DescribesDos, dos_meaning};
ghost use Rattle.dos_format.specs.Rewriting.{sector_of_entry};
ghost use Rattle.vol_laws.specs.Deleted.{HasFileDeleted};
ghost use Rattle.edit_formats.specs.DosErasing.{dos_erasing};
ghost use Rattle.edit_formats.specs.Erasing.{HasWholeUnits, IsErasing};
ghost use Rattle.vol_laws.specs.Deletion.{IsDeletion};
ghost use Rattle.edit_formats.specs.declared.writes.Prepared.{Prepared};
ghost use Rattle.edit_formats.specs.Prepared.{write_of};
ghost use Rattle.edit_formats.specs.Markings.{AreMarked};
ghost use Rattle.edit_formats.specs.Deleted.{HasPlacesOf, IsDeleteEdit, IsOldOrErased};
ghost use Rattle.edit_formats.specs.Writes.{HasEdited};

use edit_formats::{EditError, EditableFormat, Prepared};
use std::alloc::Allocator;

/// A law: an edit that makes the writes of a deletion leaves the files without the first with the name, and the
/// same places are lost; where it was stopped by the device, the store is as it was, or has no entry of that file and
/// at worst its places are lost.
pub fn a_deletion_made_takes_out_one_file<F: EditableFormat>(format: &F)
    ensures done { (name : FileNameView) (result : Result (Unit {0}) EditError) (old new : DeviceState)
        → IsTrue old.honest → HasWholeUnits (F.meaning format.now) old.store
        → HasEdited (IsDeleteEdit (F.meaning format.now) (F.files format.now)
        (F.erasures format.now) old.store name) result old new
        → OnOk result (HasFileDeleted (F.meaning format.now) ((F.files format.now).matches name) old.store new.store) }
    ensures stopped { (name : FileNameView) (result : Result (Unit {0}) EditError) (old new : DeviceState)
        → IsTrue old.honest → HasWholeUnits (F.meaning format.now) old.store
        → HasEdited (IsDeleteEdit (F.meaning format.now) (F.files format.now)
        (F.erasures format.now) old.store name) result old new
        → result ≡ Err EditError.Device
        → IsOldOrErased (F.meaning format.now) (F.files format.now) name old.store new.store }
{}

/// A law: in DOS 3.3 one write to the catalog erases the entry of a file.
pub fn a_dos_entry_is_erased_by_one_write()
    ensures { (data_disk : Bool) (reserved : List Bool) (store : List (List ℕ)) (directory : Directory) (file : ℕ)
        → DescribesDos data_disk reserved store directory → file < entries directory
        → length (sector_of_entry directory store file) ≡ 256
        → IsErasing (dos_meaning data_disk reserved) directory file store (dos_erasing directory file store) }
{}

/// A law: the writes that erase the entry of a file, and behind them those that mark its places free, are those of a
/// deletion.
pub fn an_erased_entry_and_released_places_are_a_deletion<F: EditableFormat, A: Allocator>(
    format: &F,
    writes: &[Prepared<A>],
)
    ensures { (directory : Directory) (file : ℕ) (places : List ℕ) (old : DeviceState) (start : List (Prepared A))
        → IsTrue old.honest → (F.meaning format.now).Describes old.store directory → file < entries directory
        → IsErasing (F.meaning format.now) directory file old.store (map write_of start)
        → AreMarked (F.meaning format.now) true directory places old start writes.now
        → HasPlacesOf (F.meaning format.now) directory file old.store places
        → IsDeletion (F.meaning format.now) directory file old.store (map write_of writes.now) }
{}
