// What is written into the slots of a catalog sector.
ghost use Rattle.std.specs.Prelude.{◌≡◌, ◌≤◌, ◌<◌, ◌+◌, [], ◌∷◌, length, slice_set};
ghost use Rattle.dos_catalog.specs.Writes.{slot_offset, with_bytes, with_place, entry_bytes, erased};

use crate::entry::{DELETED, ENTRY_BYTES, FIRST, KIND, NAME, SECTORS};
use byteorder::{ByteOrder, LittleEndian};

/// Where a deleted entry keeps the track of its first list: the last byte of the name.
const OLD_TRACK: usize = 0x20;

/// What a new entry has: the place of its first track/sector list, its kind with the bit that locks it, the 30 bytes of
/// its name as they are stored, and its length in sectors (Beneath Apple DOS, chapter 4).
#[derive(Clone, Copy)]
pub struct NewEntry {
    pub pointer: u32,
    pub kind: u8,
    pub name: [u8; 30],
    pub sectors: u16,
}

impl NewEntry {
    // The entry as it is stored.
    fn bytes(self) -> [u8; ENTRY_BYTES]
        requires { self.pointer < 560 }
        ensures { result ≡ entry_bytes self }
    {
        let mut bytes = [0; ENTRY_BYTES];
        bytes[0] = (self.pointer / 16) as u8;
        bytes[1] = (self.pointer % 16) as u8;
        bytes[KIND] = self.kind;
        LittleEndian::write_u16(&mut bytes[SECTORS..], self.sectors);
        bytes[NAME..SECTORS].copy_from_slice(&self.name);
        bytes
    }
}

// Where a slot begins.
fn offset_of(slot: u32) -> usize
    requires { slot < 7 }
    ensures value { result ≡ slot_offset slot }
    ensures within { result + 35 ≤ 256 }
{
    FIRST + ENTRY_BYTES * slot as usize
}

/// Writes the place of a file's first track/sector list into its slot, in a catalog sector of 256 bytes.
pub fn set_pointer(unit: &mut [u8], slot: u32, place: u32)
    requires unit { length unit.old ≡ 256 }
    requires slot { slot < 7 }
    requires place { place < 560 }
    ensures { unit.new ≡ with_place (slot_offset slot) place unit.old }
{
    let at = offset_of(slot);
    unit[at] = (place / 16) as u8;
    unit[at + 1] = (place % 16) as u8;
}

/// Writes a file's kind into its slot, with the bit that locks it.
pub fn set_kind(unit: &mut [u8], slot: u32, kind: u8)
    requires unit { length unit.old ≡ 256 }
    requires slot { slot < 7 }
    ensures { unit.new ≡ slice_set unit.old (slot_offset slot + 0x02) kind }
{
    unit[offset_of(slot) + KIND] = kind;
}

/// Writes the 30 bytes of a file's name into its slot.
pub fn set_name(unit: &mut [u8], slot: u32, name: &[u8; 30])
    requires unit { length unit.old ≡ 256 }
    requires slot { slot < 7 }
    ensures { unit.new ≡ with_bytes (slot_offset slot + 0x03) name.now unit.old }
{
    let at = offset_of(slot) + NAME;
    unit[at..at + 30].copy_from_slice(name);
}

/// Writes a new entry into a slot.
pub fn encode(unit: &mut [u8], slot: u32, entry: &NewEntry)
    requires unit { length unit.old ≡ 256 }
    requires slot { slot < 7 }
    requires pointer { entry.now.pointer < 560 }
    ensures { unit.new ≡ with_bytes (slot_offset slot) (entry_bytes entry.now) unit.old }
{
    let at = offset_of(slot);
    unit[at..at + ENTRY_BYTES].copy_from_slice(&entry.bytes());
}

/// Deletes the entry in a slot: its track goes into the last byte of its name, and FF comes in its place.
pub fn erase(unit: &mut [u8], slot: u32)
    requires unit { length unit.old ≡ 256 }
    requires slot { slot < 7 }
    ensures { unit.new ≡ erased slot unit.old }
{
    let at = offset_of(slot);
    unit[at + OLD_TRACK] = unit[at];
    unit[at] = DELETED;
}
