// One entry of the catalog.
ghost use Rattle.std.specs.Prelude.{◌≡◌, ◌≤◌, ◌<◌, ◌+◌, ◌*◌, ◌%◌, ◌↔◌, IsTrue, slice_index, slice_range};
ghost use Rattle.dos_catalog.specs.Entry.{entry_at, is_in_use};

use byteorder::{ByteOrder, LittleEndian};

/// The entries of a catalog sector.
pub(crate) const ENTRIES: u32 = 7;

pub(crate) const FIRST: usize = 0x0b;

pub(crate) const ENTRY_BYTES: usize = 35;

pub(crate) const DELETED: u8 = 0xff;

pub(crate) const KIND: usize = 0x02;

const LOCKED: u8 = 0x80;

pub(crate) const NAME: usize = 0x03;

pub(crate) const SECTORS: usize = 0x21;

/// An entry of the catalog: the place of its sector, its number there from 0, and its 35 bytes
/// (Beneath Apple DOS, chapter 4).
#[derive(Clone, Copy)]
pub struct Entry {
    pub place: u32,
    pub slot: u32,
    pub bytes: [u8; 35],
}

impl Entry {
    pub(crate) fn at(place: u32, unit: &[u8; 256], slot: u32) -> Entry
        requires { slot < 7 }
        ensures { result ≡ entry_at place unit.now slot }
    {
        let at = FIRST + ENTRY_BYTES * slot as usize;
        let mut bytes = [0; ENTRY_BYTES];
        bytes.copy_from_slice(&unit[at..at + ENTRY_BYTES]);
        Entry { place, slot, bytes }
    }

    pub(crate) fn is_in_use(&self) -> bool
        ensures { result ≡ is_in_use self.now }
    {
        self.bytes[0] != 0 && self.bytes[0] != DELETED
    }

    /// The track and sector of the file's first track/sector list, as they are stored.
    pub fn pointer(&self) -> (u8, u8)
        ensures { result ≡ (slice_index self.now.bytes 0, slice_index self.now.bytes 1) }
    {
        (self.bytes[0], self.bytes[1])
    }

    /// The kind of the file, without the bit that locks it.
    pub fn kind(&self) -> u8
        ensures { result ≡ slice_index self.now.bytes 2 % 128 }
    {
        self.bytes[KIND] % LOCKED
    }

    /// Whether the file is locked.
    pub fn locked(&self) -> bool
        ensures { IsTrue result ↔ (128 ≤ slice_index self.now.bytes 2) }
    {
        self.bytes[KIND] >= LOCKED
    }

    /// The 30 bytes of the name, as they are stored.
    pub fn name(&self) -> &[u8]
        ensures { result.now ≡ slice_range self.now.bytes 3 33 }
    {
        &self.bytes[NAME..SECTORS]
    }

    /// The length in sectors, as it is stored.
    pub fn sectors(&self) -> u16
        ensures { result ≡ slice_index self.now.bytes 33 + 256 * slice_index self.now.bytes 34 }
    {
        LittleEndian::read_u16(&self.bytes[SECTORS..])
    }
}
