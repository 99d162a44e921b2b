// The entry of a file that is erased from a ProDOS directory.
ghost use Rattle.std.specs.Prelude.{◌≡◌, ◌≢◌, ◌<◌, length, map, slice_get, All, Err, IfOk, IfErr, IsTrue};
ghost use Rattle.a2_device.specs.Device.{OnlyReads};
ghost use Rattle.edit_formats.specs.declared.writes.Prepared.{Prepared};
ghost use Rattle.edit_formats.specs.Prepared.{AreOfSize, GoBelow, write_of};
ghost use Rattle.edit_formats.specs.ProErasing.{pro_erasing, without_entry};
ghost use Rattle.edit_formats.specs.Refusal.{told_device};
ghost use Rattle.edit_formats.specs.Renamed.{IsReadRefusal};

use crate::counting::{FileCount, counted_writes};
use crate::{EditError, Prepared, copy_unit};
use a2_device::Device;
use pro_dir::{Entry, erase};
use std::alloc::Allocator;

// The entry of a number.
pub(crate) fn entry_of(entries: &[Entry], file: u32) -> Option<Entry>
    ensures { result ≡ slice_get entries.now file }
{
    entries.get(file as usize).copied()
}

// A block of a directory whose entry in a slot is made inactive.
fn without_entry<A: Allocator>(mut block: Vec<u8, A>, slot: u32) -> Vec<u8, A>
    requires block { length block.items ≡ 512 }
    requires slot { slot < 13 }
    ensures value { result.items ≡ without_entry slot block.items }
    ensures size { length result.items ≡ 512 }
{
    erase(&mut block, slot);
    block
}

// The writes that erase an entry. `Check` where it names a directory past the last place.
pub(crate) fn erase_entry<D: Device, A: Allocator + Copy>(
    alloc: A,
    device: &mut D,
    entry: &Entry,
) -> Result<Vec<Prepared<A>, A>, EditError>
    requires unit { (D.state device.old).unit_size ≡ 512 }
    requires place { entry.now.place < (D.state device.old).places }
    requires slot { entry.now.slot < 13 }

    ensures device { OnlyReads (told_device result) (D.state device.old) (D.state device.new) }
    ensures refused { IfErr result IsReadRefusal }
    ensures inside { IfOk result (λ writes. GoBelow (D.state device.old).places writes.items) }
    ensures sizes { IfOk result (λ writes. AreOfSize (D.state device.old).unit_size writes.items) }
    ensures erases { IsTrue (D.state device.old).honest
        → IfOk result (λ writes. map write_of writes.items ≡ pro_erasing entry.now (D.state device.old).store) }
    ensures known { entry.now.directory < (D.state device.old).places → result ≢ Err EditError.Check }
{
    let directory = entry.directory as u32;
    if directory >= device.places() {
        return Err(EditError::Check);
    }
    let place = entry.place as u32;
    let block = copy_unit(alloc, device, place)?;
    let unit = without_entry(block, entry.slot as u32);
    let erased = Prepared { place, unit };
    counted_writes(alloc, device, FileCount::Less, erased, directory)
}
