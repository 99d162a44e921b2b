// The command that makes a directory.
ghost use Rattle.std.specs.Prelude.{◌≡◌, map, Err, IfErr, IfOk, IsTrue, OnOk};
ghost use Rattle.a2_device.specs.Device.{OnlyReads};
ghost use Rattle.vol_format.specs.Fits.{Fits};
ghost use Rattle.vol_format.specs.Accepted.{IsVolume};
ghost use Rattle.pro_format.specs.Pro.{pro_meaning};
ghost use Rattle.edit_formats.specs.Prepared.{write_of};
ghost use Rattle.edit_formats.specs.Refusal.{told_device};
ghost use Rattle.edit_formats.specs.Writes.{HasEdited};
ghost use Rattle.edit_formats.specs.ProSaves.{pro_saves};
ghost use Rattle.file_edits.specs.Fitting.{AreWritesFor};
ghost use Rattle.file_edits.specs.Saved.{HasNoDirectory, HasNoName, HasNameInUse};
ghost use Rattle.file_edits.specs.Making.{making};
ghost use Rattle.file_edits.specs.Made.{
  IsMaking,
  IsMakingRefusal,
  IsOldOrMade,
  IsTold,
  HasFullParent,
  HasMade,
  HasNoPlace,
};

use crate::preparing::prepare_directory;
use crate::{Acceptance, accepted_volume};
use a2_device::Device;
use edit_formats::{EditError, Prepared, write_all};
use pro_dir::ProDate;
use pro_format::Prodos;
use std::alloc::Allocator;

// The writes that make a directory.
fn checked_writes<D: Device, B: Allocator + Copy, A: Allocator + Copy>(
    alloc: A,
    device: &mut D,
    format: &Prodos<B>,
    acceptance: Acceptance,
    path: &[u8],
    date: ProDate,
) -> Result<Vec<Prepared<A>, A>, EditError>
    requires fits { Fits (pro_meaning format.now) (D.state device.old) }
    requires accepted { acceptance ≡ Acceptance.Known → IsTrue (D.state device.old).honest
        → IsVolume (pro_meaning format.now) (D.state device.old).store }

    ensures device { OnlyReads (told_device result) (D.state device.old) (D.state device.new) }
    ensures refused { IfErr result IsMakingRefusal }
    ensures fit { IfOk result (λ writes. AreWritesFor (D.state device.old) writes.items) }
    ensures made { IsTrue (D.state device.old).honest
        → IfOk result (λ writes. IsMaking (making format.now (D.state device.old).store path.now date)
        (map write_of writes.items)) }
    ensures told { IsTrue (D.state device.old).honest
        → IfErr result (IsTold (making format.now (D.state device.old).store path.now date)) }
    ensures check { IsTrue (D.state device.old).honest → result ≡ Err EditError.Check
        → IsVolume (pro_meaning format.now) (D.state device.old).store → ⊥ }
{
    match accepted_volume(alloc, device, format, acceptance) {
        Err(error) => Err(error),
        Ok(volume) => prepare_directory(alloc, device, format, &volume, path, date),
    }
}

// Makes a directory; all writes are made ready before the first.
fn make_new<D: Device, B: Allocator + Copy, A: Allocator + Copy>(
    alloc: A,
    device: &mut D,
    format: &Prodos<B>,
    acceptance: Acceptance,
    path: &[u8],
    date: ProDate,
) -> Result<(), EditError>
    requires fits { Fits (pro_meaning format.now) (D.state device.old) }
    requires accepted { acceptance ≡ Acceptance.Known → IsTrue (D.state device.old).honest
        → IsVolume (pro_meaning format.now) (D.state device.old).store }

    ensures edited { HasEdited (IsMaking (making format.now (D.state device.old).store path.now date))
        result (D.state device.old) (D.state device.new) }
    ensures refusals { IfErr result IsMakingRefusal }
    ensures check { IsTrue (D.state device.old).honest → result ≡ Err EditError.Check
        → IsVolume (pro_meaning format.now) (D.state device.old).store → ⊥ }
    ensures told { IsTrue (D.state device.old).honest
        → IfErr result (IsTold (making format.now (D.state device.old).store path.now date)) }
{
    match checked_writes(alloc, device, format, acceptance, path, date) {
        Err(error) => Err(error),
        Ok(writes) => write_all(device, writes.as_slice()),
    }
}

/// Makes an empty directory of one block under a path that no entry has. The block gets the first free place, and its
/// entry the first free slot of the directory before the last slash of the path, which must be there; a path without a
/// slash is of the volume's directory. The block is written first, then the unit of the map in which its place is
/// marked used, then the entry with its directory's count of files. All writes are prepared before the first is made.
/// Where it is known that the volume is accepted, the parts of its files are not walked first.
///
/// # Errors
/// Of several the first in this order: `Check` where the volume is not accepted; `NotFound` where it has no such
/// directory; `Name` where no entry can have this name; `Exists` where an entry of the directory has it; `DirFull`
/// where the directory has no free slot; `VolumeFull` where no place is free. `Device` where a read or a write fails;
/// `Memory`, before the first write alone.
pub fn make_directory<D: Device, B: Allocator + Copy, A: Allocator + Copy>(
    alloc: A,
    device: &mut D,
    format: &Prodos<B>,
    acceptance: Acceptance,
    path: &[u8],
    date: ProDate,
) -> Result<(), EditError>
    requires fits { Fits (pro_meaning format.now) (D.state device.old) }
    requires accepted { acceptance ≡ Acceptance.Known → IsTrue (D.state device.old).honest
        → IsVolume (pro_meaning format.now) (D.state device.old).store }

    // every device
    ensures edited { HasEdited (IsMaking (making format.now (D.state device.old).store path.now date))
        result (D.state device.old) (D.state device.new) }
    ensures refusals { IfErr result IsMakingRefusal }

    // an honest device
    ensures made { IsTrue (D.state device.old).honest
        → OnOk result (HasMade (making format.now (D.state device.old).store path.now date)
        (D.state device.new).store) }
    ensures stopped { IsTrue (D.state device.old).honest → result ≡ Err EditError.Device
        → IsOldOrMade (making format.now (D.state device.old).store path.now date) (D.state device.new).store }
    ensures check { IsTrue (D.state device.old).honest → result ≡ Err EditError.Check
        → IsVolume (pro_meaning format.now) (D.state device.old).store → ⊥ }
    ensures not_found { IsTrue (D.state device.old).honest → result ≡ Err EditError.NotFound
        → HasNoDirectory (pro_meaning format.now) pro_saves (D.state device.old).store path.now }
    ensures name { IsTrue (D.state device.old).honest → result ≡ Err EditError.Name
        → HasNoName (pro_meaning format.now) pro_saves (D.state device.old).store path.now }
    ensures exists { IsTrue (D.state device.old).honest → result ≡ Err EditError.Exists
        → HasNameInUse (pro_meaning format.now) pro_saves (D.state device.old).store path.now }
    ensures dir_full { IsTrue (D.state device.old).honest → result ≡ Err EditError.DirFull
        → HasFullParent (making format.now (D.state device.old).store path.now date) }
    ensures volume_full { IsTrue (D.state device.old).honest → result ≡ Err EditError.VolumeFull
        → HasNoPlace (making format.now (D.state device.old).store path.now date) }
{
    make_new(alloc, device, format, acceptance, path, date)
}
