// One entry of a directory.
ghost use Rattle.std.specs.Prelude.{◌≡◌, ◌<◌, ◌≤◌, ◌+◌, ◌*◌, ◌/◌, slice_index, slice_range};
ghost use Rattle.pro_dir.specs.Entry.{
  entry_at,
  is_listed,
  is_inactive,
  is_header,
  is_directory,
  key_of,
  name_of,
  storage_of,
  word,
  long,
};

use crate::{Access, ProDate};
use byteorder::{ByteOrder, LittleEndian};

/// The bytes of a block.
pub(crate) const BLOCK_BYTES: usize = 512;

/// The entries of a directory block.
pub(crate) const ENTRIES: u8 = 13;

pub(crate) const FIRST: usize = 0x04;

pub(crate) const ENTRY_BYTES: usize = 39;

pub(crate) const NAME: usize = 0x01;

pub(crate) const KIND: usize = 0x10;

pub(crate) const KEY: usize = 0x11;

pub(crate) const BLOCKS_USED: usize = 0x13;

pub(crate) const END: usize = 0x15;

pub(crate) const CREATED: usize = 0x18;

const VERSION: usize = 0x1c;

pub(crate) const ACCESS: usize = 0x1e;

pub(crate) const AUX: usize = 0x1f;

pub(crate) const MODIFIED: usize = 0x21;

pub(crate) const HEADER: usize = 0x25;

/// The storage type of a subdirectory's entry.
const DIRECTORY: u8 = 0x0d;

/// An entry of a directory: the key block of its directory, the block that has it, its number there from 0, the
/// header's slot among them, and its 39 bytes (ProDOS 8 Technical Reference Manual, Appendix B).
#[derive(Clone, Copy)]
pub struct Entry {
    pub directory: u16,
    pub place: u16,
    pub slot: u8,
    pub bytes: [u8; 39],
}

impl Entry {
    pub(crate) fn at(directory: u16, place: u16, unit: &[u8; BLOCK_BYTES], slot: u8) -> Entry
        requires { slot < 13 }
        ensures { result ≡ entry_at directory place unit.now slot }
    {
        let at = FIRST + ENTRY_BYTES * slot as usize;
        let mut bytes = [0; ENTRY_BYTES];
        bytes.copy_from_slice(&unit[at..at + ENTRY_BYTES]);
        Entry {
            directory,
            place,
            slot,
            bytes,
        }
    }

    // Whether the slot is a directory's header.
    fn is_header(&self) -> bool
        ensures { result ≡ is_header self.now }
    {
        self.place == self.directory && self.slot == 0
    }

    pub(crate) fn is_listed(&self) -> bool
        ensures { result ≡ is_listed self.now }
    {
        self.storage() != 0 && !self.is_header()
    }

    pub(crate) fn is_inactive(&self) -> bool
        ensures { result ≡ is_inactive self.now }
    {
        self.storage() == 0 && !self.is_header()
    }

    /// The storage type: 1 for a seedling, 2 for a sapling, 3 for a tree, 13 for a subdirectory.
    pub fn storage(&self) -> u8
        ensures { result ≡ storage_of self.now.bytes }
    {
        self.bytes[0] / 16
    }

    /// Whether the entry is of a subdirectory.
    pub fn is_directory(&self) -> bool
        ensures { result ≡ is_directory self.now }
    {
        self.storage() == DIRECTORY
    }

    /// The bytes of the name, as many as its length says.
    pub fn name(&self) -> &[u8]
        ensures { result.now ≡ name_of self.now.bytes }
    {
        let len = (self.bytes[0] % 16) as usize;
        &self.bytes[NAME..NAME + len]
    }

    /// The type of the file.
    pub fn kind(&self) -> u8
        ensures { result ≡ slice_index self.now.bytes 0x10 }
    {
        self.bytes[KIND]
    }

    /// The key pointer, as it is stored: the first block of the file or of the subdirectory.
    pub fn key(&self) -> u32
        ensures { result ≡ key_of self.now }
    {
        self.key_block() as u32
    }

    pub(crate) fn key_block(&self) -> u16
        ensures { result ≡ key_of self.now }
    {
        LittleEndian::read_u16(&self.bytes[KEY..])
    }

    /// The number of blocks used, as it is stored.
    pub fn blocks_used(&self) -> u16
        ensures { result ≡ word self.now.bytes 0x13 }
    {
        LittleEndian::read_u16(&self.bytes[BLOCKS_USED..])
    }

    /// The length of the file in bytes.
    pub fn eof(&self) -> u32
        ensures { result ≡ long self.now.bytes 0x15 }
    {
        LittleEndian::read_u24(&self.bytes[END..])
    }

    /// The access bits.
    pub fn access(&self) -> Access
        ensures { result.0 ≡ slice_index self.now.bytes 0x1e }
    {
        Access::of(self.bytes[ACCESS])
    }

    /// The auxiliary type.
    pub fn aux(&self) -> u16
        ensures { result ≡ word self.now.bytes 0x1f }
    {
        LittleEndian::read_u16(&self.bytes[AUX..])
    }

    /// The date and the time of the creation.
    pub fn created(&self) -> ProDate
        ensures { result.0 ≡ slice_range self.now.bytes 0x18 0x1c }
    {
        let mut bytes = [0; 4];
        bytes.copy_from_slice(&self.bytes[CREATED..VERSION]);
        ProDate(bytes)
    }

    /// The date and the time of the last modification.
    pub fn modified(&self) -> ProDate
        ensures { result.0 ≡ slice_range self.now.bytes 0x21 0x25 }
    {
        let mut bytes = [0; 4];
        bytes.copy_from_slice(&self.bytes[MODIFIED..HEADER]);
        ProDate(bytes)
    }

    /// The key block of the directory, as the entry stores it.
    pub fn header(&self) -> u32
        ensures { result ≡ word self.now.bytes 0x25 }
    {
        LittleEndian::read_u16(&self.bytes[HEADER..]) as u32
    }
}
