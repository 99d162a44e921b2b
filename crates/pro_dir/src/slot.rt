// What is written into the slots of a directory block.
ghost use Rattle.std.specs.Prelude.{◌≡◌, ◌≤◌, ◌<◌, ◌+◌, ◌*◌, ◌/◌, length, slice_index, slice_set};
ghost use Rattle.pro_dir.specs.Entry.{word};
ghost use Rattle.pro_dir.specs.Writes.{slot_offset, with_bytes, word_bytes, long_bytes, padded, entry_bytes};

use crate::ProDate;
use crate::entry::{
    ACCESS, AUX, BLOCKS_USED, CREATED, END, ENTRY_BYTES, FIRST, HEADER, KEY, KIND, MODIFIED, NAME,
};
use byteorder::{ByteOrder, LittleEndian};

/// Where a key block has its directory's count of files.
const COUNT: usize = 0x25;

const NAME_BYTES: usize = 15;

/// What a new file's entry has: its storage type, its name and the length of that, its type, its key pointer, the
/// blocks that it uses, its length in bytes, its auxiliary type, its access bits, the date of its creation and
/// modification, and the key block of its directory (ProDOS 8 Technical Reference Manual, Appendix B).
#[derive(Clone, Copy)]
pub struct NewFile {
    pub storage: u8,
    pub name: [u8; 15],
    pub len: u8,
    pub kind: u8,
    pub key: u32,
    pub blocks: u16,
    pub eof: u32,
    pub aux: u16,
    pub access: u8,
    pub date: ProDate,
    pub dir: u32,
}

// Where a slot begins.
fn offset_of(slot: u32) -> usize
    requires { slot < 13 }
    ensures value { result ≡ slot_offset slot }
    ensures within { result + 39 ≤ 512 }
{
    FIRST + ENTRY_BYTES * slot as usize
}

// A name with 00 behind its length.
fn padded(name: &[u8; NAME_BYTES], len: u8) -> [u8; NAME_BYTES]
    requires { len ≤ 15 }
    ensures value { result ≡ padded len name.now }
    ensures size { length result ≡ 15 }
{
    let len = len as usize;
    let mut bytes = [0; NAME_BYTES];
    bytes[..len].copy_from_slice(&name[..len]);
    bytes
}

// Writes some bytes at an offset.
fn put(unit: &mut [u8], at: usize, bytes: &[u8])
    requires { at + length bytes.now ≤ length unit.old }
    ensures { unit.new ≡ with_bytes at bytes.now unit.old }
{
    unit[at..at + bytes.len()].copy_from_slice(bytes);
}

// Writes a number of two bytes.
fn put_word(unit: &mut [u8], at: usize, number: u16)
    requires { at + 2 ≤ length unit.old }
    ensures { unit.new ≡ with_bytes at (word_bytes number) unit.old }
{
    let mut bytes = [0; 2];
    LittleEndian::write_u16(&mut bytes, number);
    put(unit, at, &bytes);
}

// Writes a number of three bytes.
fn put_long(unit: &mut [u8], at: usize, number: u32)
    requires within { at + 3 ≤ length unit.old }
    requires number { number < 16777216 }
    ensures { unit.new ≡ with_bytes at (long_bytes number) unit.old }
{
    let mut bytes = [0; 3];
    LittleEndian::write_u24(&mut bytes, number);
    put(unit, at, &bytes);
}

// Writes a date.
fn put_date(unit: &mut [u8], at: usize, date: &ProDate)
    requires { at + 4 ≤ length unit.old }
    ensures value { unit.new ≡ with_bytes at date.now.0 unit.old }
    ensures size { length date.now.0 ≡ 4 }
{
    put(unit, at, &date.0);
}

impl NewFile {
    // The entry as it is stored.
    fn bytes(&self) -> [u8; ENTRY_BYTES]
        requires storage { self.now.storage < 16 }
        requires len { self.now.len ≤ 15 }
        requires key { self.now.key < 65536 }
        requires eof { self.now.eof < 16777216 }
        requires dir { self.now.dir < 65536 }
        ensures { result ≡ entry_bytes self.now }
    {
        let mut bytes = [0; ENTRY_BYTES];
        bytes[0] = 16 * self.storage + self.len;
        put(&mut bytes, NAME, &padded(&self.name, self.len));
        bytes[KIND] = self.kind;
        put_word(&mut bytes, KEY, self.key as u16);
        put_word(&mut bytes, BLOCKS_USED, self.blocks);
        put_long(&mut bytes, END, self.eof);
        put_date(&mut bytes, CREATED, &self.date);
        bytes[ACCESS] = self.access;
        put_word(&mut bytes, AUX, self.aux);
        put_date(&mut bytes, MODIFIED, &self.date);
        put_word(&mut bytes, HEADER, self.dir as u16);
        bytes
    }
}

/// Writes a new file's entry into a slot of a directory block of 512 bytes.
pub fn encode(unit: &mut [u8], slot: u32, file: &NewFile)
    requires unit { length unit.old ≡ 512 }
    requires slot { slot < 13 }
    requires storage { file.now.storage < 16 }
    requires len { file.now.len ≤ 15 }
    requires key { file.now.key < 65536 }
    requires eof { file.now.eof < 16777216 }
    requires dir { file.now.dir < 65536 }
    ensures { unit.new ≡ with_bytes (slot_offset slot) (entry_bytes file.now) unit.old }
{
    put(unit, offset_of(slot), &file.bytes());
}

/// Makes the slot of an entry inactive: its storage type and its name's length become 0.
pub fn erase(unit: &mut [u8], slot: u32)
    requires unit { length unit.old ≡ 512 }
    requires slot { slot < 13 }
    ensures { unit.new ≡ slice_set unit.old (slot_offset slot) 0 }
{
    unit[offset_of(slot)] = 0;
}

/// Writes a file's key pointer into its slot.
pub fn set_key(unit: &mut [u8], slot: u32, block: u32)
    requires unit { length unit.old ≡ 512 }
    requires slot { slot < 13 }
    requires block { block < 65536 }
    ensures { unit.new ≡ with_bytes (slot_offset slot + 0x11) (word_bytes block) unit.old }
{
    put_word(unit, offset_of(slot) + KEY, block as u16);
}

/// Writes a file's name into its slot: the length in the low half of byte 00, whose high half stays, and the bytes,
/// followed by 00.
pub fn set_name(unit: &mut [u8], slot: u32, name: &[u8; 15], len: u8)
    requires unit { length unit.old ≡ 512 }
    requires slot { slot < 13 }
    requires len { len ≤ 15 }
    ensures { let at = slot_offset slot in
        unit.new ≡ with_bytes (at + 1) (padded len name.now)
        (slice_set unit.old at (slice_index unit.old at / 16 * 16 + len)) }
{
    let at = offset_of(slot);
    unit[at] = unit[at] / 16 * 16 + len;
    put(unit, at + NAME, &padded(name, len));
}

/// Writes a file's access bits into its slot.
pub fn set_access(unit: &mut [u8], slot: u32, access: u8)
    requires unit { length unit.old ≡ 512 }
    requires slot { slot < 13 }
    ensures { unit.new ≡ slice_set unit.old (slot_offset slot + 0x1e) access }
{
    unit[offset_of(slot) + ACCESS] = access;
}

/// The count of files in the header of a directory's key block.
pub fn count(unit: &[u8]) -> u16
    requires { length unit.now ≡ 512 }
    ensures { result ≡ word unit.now 0x25 }
{
    LittleEndian::read_u16(&unit[COUNT..])
}

/// Writes the count of files into the header of a directory's key block.
pub fn set_count(unit: &mut [u8], count: u16)
    requires { length unit.old ≡ 512 }
    ensures { unit.new ≡ with_bytes 0x25 (word_bytes count) unit.old }
{
    put_word(unit, COUNT, count);
}
