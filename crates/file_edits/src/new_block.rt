// The block of a new directory.
ghost use Rattle.std.specs.Prelude.{◌≡◌, ◌<◌, ◌≤◌, ◌+◌, ◌/◌, ◌%◌, ◌++◌, true, length, IfOk, OnOk};
ghost use Rattle.edit_formats.specs.ProNames.{is_pro_name};
ghost use Rattle.edit_formats.specs.ProSaves.{last_name};
ghost use Rattle.file_edits.specs.NewDirectory.{behind_date, directory_block, up_to_name};

use edit_formats::{Slot, last_name, pro_name};
use pro_dir::ProDate;
use std::alloc::{AllocError, Allocator};

/// What a header has behind its name, up to its date.
const BEHIND_NAME: [u8; 8] = [0x75, 0, 0, 0, 0, 0, 0, 0];

/// The access bits of a new directory, the bytes of its entries, and how many of these a block has.
const ACCESS: u8 = 0xc3;

const ENTRY_BYTES: u8 = 39;

const ENTRIES: u8 = 13;

/// How many bytes of the block stand behind the header.
const BEHIND_HEADER: usize = 469;

// Writes bytes behind others.
fn add<A: Allocator>(unit: &mut Vec<u8, A>, bytes: &[u8]) -> Result<(), AllocError>
    ensures { OnOk result (unit.new.items ≡ unit.old.items ++ bytes.now) }
{
    unit.extend_from_slice(bytes)?;
    Ok(())
}

// What stands before the name: the links, and the storage type with the length of the name.
fn up_to_name(name: &[u8]) -> [u8; 5]
    requires { length name.now ≤ 15 }
    ensures { result ≡ up_to_name (0xe0 + length name.now) }
{
    [0, 0, 0, 0, 0xe0 + name.len() as u8]
}

// What stands behind the date of the creation, as far as to the end of the header.
fn behind_date(slot: &Slot) -> [u8; 11]
    requires place { slot.now.place < 65536 }
    requires number { slot.now.number < 13 }
    ensures { result ≡ behind_date (slot.now.place % 256) (slot.now.place / 256) (slot.now.number + 1) }
{
    let low = (slot.place % 256) as u8;
    let high = (slot.place / 256) as u8;
    let number = slot.number as u8 + 1;
    [
        0,
        0,
        ACCESS,
        ENTRY_BYTES,
        ENTRIES,
        0,
        0,
        low,
        high,
        number,
        ENTRY_BYTES,
    ]
}

// Writes a date behind other bytes.
fn add_date<A: Allocator>(unit: &mut Vec<u8, A>, date: &ProDate) -> Result<(), AllocError>
    ensures added { OnOk result (unit.new.items ≡ unit.old.items ++ date.now.0) }
    ensures date { length date.now.0 ≡ 4 }
{
    add(unit, &date.0)
}

/// The block of a new directory whose entry gets a slot.
///
/// # Errors
/// Want of memory alone.
pub(crate) fn directory_block<A: Allocator>(
    alloc: A,
    path: &[u8],
    slot: &Slot,
    date: &ProDate,
) -> Result<Vec<u8, A>, AllocError>
    requires name { is_pro_name (last_name path.now) ≡ true }
    requires place { slot.now.place < 65536 }
    requires number { slot.now.number < 13 }
    ensures value { IfOk result (λ unit. unit.items ≡ directory_block path.now slot.now date.now) }
    ensures size { IfOk result (λ unit. length unit.items ≡ 512) }
{
    let name = last_name(path);
    let mut unit = Vec::new(alloc);
    add(&mut unit, &up_to_name(name))?;
    add(&mut unit, &pro_name(name))?;
    add(&mut unit, &BEHIND_NAME)?;
    add_date(&mut unit, date)?;
    add(&mut unit, &behind_date(slot))?;
    add(&mut unit, &[0; BEHIND_HEADER])?;
    Ok(unit)
}
