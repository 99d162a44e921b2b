// The command that saves a new file.
ghost use Rattle.std.specs.Prelude.{◌≡◌, Err, IfErr, IsTrue, OnOk};
ghost use Rattle.vol_format.specs.Fits.{Fits};
ghost use Rattle.vol_format.specs.Accepted.{IsVolume};
ghost use Rattle.edit_formats.specs.Writes.{HasEdited};
ghost use Rattle.file_edits.specs.Given.{HasUnitsOf};
ghost use Rattle.file_edits.specs.Saving.{saving_of, AreWritesOf, IsToldOf};
ghost use Rattle.file_edits.specs.Saved.{
  IsSaveEdit,
  IsSaveRefusal,
  HasSaved,
  IsOldOrSaved,
  HasNoDirectory,
  HasNoName,
  HasNameInUse,
  IsTooLong,
  HasFullDirectory,
  HasFewPlaces,
};

use crate::acceptance::Acceptance;
use crate::accepting::accepted_volume;
use crate::given::NewFile;
use crate::preparing::prepare_file;
use a2_device::Device;
use edit_formats::{EditError, SavableFormat, write_all};
use std::alloc::Allocator;

// Saves a new file; all writes are made ready before the first.
fn save_new<D: Device, F: SavableFormat, A: Allocator + Copy>(
    alloc: A,
    device: &mut D,
    format: &F,
    acceptance: Acceptance,
    file: &NewFile<'_>,
) -> Result<(), EditError>
    requires fits { Fits (F.meaning format.now) (D.state device.old) }
    requires accepted { acceptance ≡ Acceptance.Known → IsTrue (D.state device.old).honest
        → IsVolume (F.meaning format.now) (D.state device.old).store }
    requires units { HasUnitsOf (F.meaning format.now) file.now }

    ensures edited { HasEdited (AreWritesOf (saving_of (F.meaning format.now) (F.saves format.now)
        (D.state device.old).store file.now)) result (D.state device.old) (D.state device.new) }
    ensures refusals { IfErr result IsSaveRefusal }
    ensures check { IsTrue (D.state device.old).honest → result ≡ Err EditError.Check
        → IsVolume (F.meaning format.now) (D.state device.old).store → ⊥ }
    ensures told { IsTrue (D.state device.old).honest
        → IsToldOf (saving_of (F.meaning format.now) (F.saves format.now) (D.state device.old).store file.now) result }
{
    let volume = accepted_volume(alloc, device, format, acceptance)?;
    let writes = prepare_file(alloc, device, format, &volume, file)?;
    write_all(device, writes.as_slice())
}

/// Saves a new file under a path that no file has. The parts of the file get the first free places, in the order of the
/// available places, and its entry the first free slot of its directory. The units are written first, then the marks of
/// their places, then the entry. All writes are prepared before the first is made. Where it is known that the volume is
/// accepted, the parts of its files are not walked first.
///
/// # Errors
/// Of several the first in this order: `Check` where the volume is not accepted; `NotFound` where it has no such
/// directory; `Name` where no file can have this name; `Exists` where an entry of the directory has it; `TooLong` where
/// the file is longer than a file can be; `DirFull` where the directory has no free slot; `VolumeFull` where fewer
/// places are free than the file has parts. `Device` where a read or a write fails; `Memory`, before the first write
/// alone.
pub fn save<D: Device, F: SavableFormat, A: Allocator + Copy>(
    alloc: A,
    device: &mut D,
    format: &F,
    acceptance: Acceptance,
    file: &NewFile<'_>,
) -> Result<(), EditError>
    requires fits { Fits (F.meaning format.now) (D.state device.old) }
    requires accepted { acceptance ≡ Acceptance.Known → IsTrue (D.state device.old).honest
        → IsVolume (F.meaning format.now) (D.state device.old).store }
    requires units { HasUnitsOf (F.meaning format.now) file.now }

    // every device
    ensures edited { HasEdited (IsSaveEdit (F.meaning format.now) (F.saves format.now)
        (D.state device.old).store
        file.now.path.now file.now.attributes.now file.now.stored.now file.now.units.now)
        result (D.state device.old) (D.state device.new) }
    ensures refusals { IfErr result IsSaveRefusal }

    // an honest device
    ensures saved { IsTrue (D.state device.old).honest
        → OnOk result (HasSaved (F.meaning format.now) (F.saves format.now)
        file.now.path.now file.now.attributes.now file.now.stored.now file.now.units.now
        (D.state device.old).store (D.state device.new).store) }
    ensures stopped { IsTrue (D.state device.old).honest → result ≡ Err EditError.Device
        → IsOldOrSaved (F.meaning format.now) (F.saves format.now)
        file.now.path.now file.now.attributes.now file.now.stored.now file.now.units.now
        (D.state device.old).store (D.state device.new).store }
    ensures check { IsTrue (D.state device.old).honest → result ≡ Err EditError.Check
        → IsVolume (F.meaning format.now) (D.state device.old).store → ⊥ }
    ensures not_found { IsTrue (D.state device.old).honest → result ≡ Err EditError.NotFound
        → HasNoDirectory (F.meaning format.now) (F.saves format.now) (D.state device.old).store file.now.path.now }
    ensures name { IsTrue (D.state device.old).honest → result ≡ Err EditError.Name
        → HasNoName (F.meaning format.now) (F.saves format.now) (D.state device.old).store file.now.path.now }
    ensures exists { IsTrue (D.state device.old).honest → result ≡ Err EditError.Exists
        → HasNameInUse (F.meaning format.now) (F.saves format.now) (D.state device.old).store file.now.path.now }
    ensures too_long { IsTrue (D.state device.old).honest → result ≡ Err EditError.TooLong
        → IsTooLong (F.meaning format.now) (F.saves format.now)
        (D.state device.old).store file.now.path.now file.now.attributes.now file.now.stored.now }
    ensures dir_full { IsTrue (D.state device.old).honest → result ≡ Err EditError.DirFull
        → HasFullDirectory (F.meaning format.now) (F.saves format.now)
        (D.state device.old).store file.now.path.now file.now.attributes.now file.now.stored.now }
    ensures volume_full { IsTrue (D.state device.old).honest → result ≡ Err EditError.VolumeFull
        → HasFewPlaces (F.meaning format.now) (F.saves format.now)
        (D.state device.old).store file.now.path.now file.now.attributes.now file.now.stored.now }
{
    save_new(alloc, device, format, acceptance, file)
}
