// The writes that enter a new directory.
ghost use Rattle.std.specs.Prelude.{◌≡◌, ◌≤◌, ◌<◌, true, length, map, IfOk, IfErr, IsTrue};
ghost use Rattle.a2_device.specs.Device.{OnlyReads};
ghost use Rattle.pro_dir.specs.Writes.{entry_bytes, slot_offset, with_bytes};
ghost use Rattle.edit_formats.specs.Prepared.{AreOfSize, GoBelow, write_of};
ghost use Rattle.edit_formats.specs.ProNames.{is_pro_name};
ghost use Rattle.edit_formats.specs.Refusal.{told_device, IsPrepareRefusal};
ghost use Rattle.edit_formats.specs.ProSaves.{last_name};
ghost use Rattle.file_edits.specs.NewDirectory.{entering, new_entry};
ghost use Rattle.file_edits.specs.Preparing.{IsPlacedWithin};

use a2_device::Device;
use edit_formats::{
    EditError, FileCount, Prepared, Slot, copy_unit, counted_writes, last_name, pro_name,
};
use pro_dir::{NewFile, ProDate, encode};
use std::alloc::Allocator;

/// The storage type and the type of a directory, and the access bits of a new file: it may be destroyed, renamed,
/// written and read, and is to be backed up.
const STORAGE: u8 = 13;

const KIND: u8 = 0x0f;

const ACCESS: u8 = 0xe3;

/// A new directory, the slot that its entry gets, and the place of its block.
#[derive(Clone, Copy)]
pub(crate) struct PlacedDirectory<'a> {
    pub(crate) path: &'a [u8],
    pub(crate) date: ProDate,
    pub(crate) slot: Slot,
    pub(crate) place: u32,
}

// The entry of a new directory.
fn new_entry(placed: &PlacedDirectory<'_>) -> NewFile
    requires { is_pro_name (last_name placed.now.path.now) ≡ true }
    ensures { result ≡ new_entry placed.now.path.now placed.now.slot placed.now.place placed.now.date }
{
    let name = last_name(placed.path);
    NewFile {
        storage: STORAGE,
        name: pro_name(name),
        len: name.len() as u8,
        kind: KIND,
        key: placed.place,
        blocks: 1,
        eof: 512,
        aux: 0,
        access: ACCESS,
        date: placed.date,
        dir: placed.slot.directory,
    }
}

// A block of a directory with an entry in a slot.
fn with_entry<A: Allocator>(mut block: Vec<u8, A>, slot: u32, file: &NewFile) -> Vec<u8, A>
    requires block { length block.items ≡ 512 }
    requires slot { slot < 13 }
    requires storage { file.now.storage < 16 }
    requires len { file.now.len ≤ 15 }
    requires key { file.now.key < 65536 }
    requires eof { file.now.eof < 16777216 }
    requires dir { file.now.dir < 65536 }
    ensures value { result.items ≡ with_bytes (slot_offset slot) (entry_bytes file.now) block.items }
    ensures size { length result.items ≡ 512 }
{
    encode(&mut block, slot, file);
    block
}

/// The writes that enter a new directory into its slot: the entry, and the parent's count of files.
///
/// # Errors
/// `Device` where a read fails; `Memory`.
pub(crate) fn directory_entry_writes<D: Device, A: Allocator + Copy>(
    alloc: A,
    device: &mut D,
    placed: &PlacedDirectory<'_>,
) -> Result<Vec<Prepared<A>, A>, EditError>
    requires size { (D.state device.old).unit_size ≡ 512 }
    requires placed { IsPlacedWithin (D.state device.old).places placed.now }

    ensures device { OnlyReads (told_device result) (D.state device.old) (D.state device.new) }
    ensures refused { IfErr result IsPrepareRefusal }
    ensures inside { IfOk result (λ writes. GoBelow (D.state device.old).places writes.items) }
    ensures sizes { IfOk result (λ writes. AreOfSize (D.state device.old).unit_size writes.items) }
    ensures enters { IsTrue (D.state device.old).honest → IfOk result (λ writes. map write_of writes.items
        ≡ entering (D.state device.old).store placed.now.path.now placed.now.slot placed.now.place placed.now.date) }
{
    let block = copy_unit(alloc, device, placed.slot.place)?;
    let entry = new_entry(placed);
    let unit = with_entry(block, placed.slot.number, &entry);
    let place = placed.slot.place;
    let entered = Prepared { place, unit };
    counted_writes(
        alloc,
        device,
        FileCount::More,
        entered,
        placed.slot.directory,
    )
}
