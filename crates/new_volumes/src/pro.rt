// The blocks of an empty ProDOS volume.
ghost use Rattle.std.specs.Prelude.{◌≡◌, ◌≤◌, ◌<◌, ◌≢◌, ◌+◌, ◌-◌, ◌*◌, ◌%◌, ◌^◌, ℕ, length, true};
ghost use Rattle.pro_bitmap.specs.Bitmap.{is_free_in};
ghost use Rattle.pro_dir.specs.Volume.{map_blocks};
ghost use Rattle.new_volumes.specs.Fields.{unit_with, with_fields};
ghost use Rattle.new_volumes.specs.Filling.{Filled};
ghost use Rattle.new_volumes.specs.ProUnits.{
  IsEmptyBlock,
  IsMapBlock,
  directory_block,
  first_free,
  header_fields,
  is_free_block,
  link_fields,
};

use crate::fields::{put, put_unit, put_word};
use a2_device::BLOCK_BYTES;
use pro_dir::ProDate;

/// The blocks of the directory.
const FIRST: u16 = 2;

const LAST: u16 = 5;

/// The first block of the map, and how many blocks have their bits in one.
const MAP: u16 = 6;

const BITS: u32 = 4096;

// The first block behind the map.
fn first_free(blocks: u16) -> u16
    ensures value { result ≡ first_free blocks }
    ensures few { result ≤ 22 }
{
    MAP + blocks.div_ceil(4096)
}

// Writes the header of the directory into its first block.
fn put_header(unit: &mut [u8], blocks: u16, name: &[u8], date: ProDate)
    requires unit { length unit.old ≡ 512 }
    requires name { length name.now ≤ 15 }
    ensures value { unit.new ≡ with_fields (header_fields name.now date.0 blocks) unit.old }
    ensures date { length date.0 ≡ 4 }
{
    put(unit, 0x04, &[0xf0 + name.len() as u8]);
    put(unit, 0x05, name);
    put(unit, 0x1c, &date.0);
    put(unit, 0x22, &[0xc3, 39, 13]);
    put_word(unit, 0x27, MAP);
    put_word(unit, 0x29, blocks);
}

#[tactic(auto, unfolding(crate::specs::Fields::zeros))]
// A block of the directory that has no entry.
fn linked_block(block: u16) -> [u8; BLOCK_BYTES]
    requires { (2 ≤ block) × (block < 6) }
    ensures { result ≡ unit_with 512 (link_fields block) }
{
    let mut unit = [0; BLOCK_BYTES];
    put_word(&mut unit, 0x00, if block == FIRST { 0 } else { block - 1 });
    put_word(&mut unit, 0x02, if block == LAST { 0 } else { block + 1 });
    unit
}

// A block of the directory.
fn directory_block(blocks: u16, name: &[u8], date: ProDate, block: u16) -> [u8; BLOCK_BYTES]
    requires name { length name.now ≤ 15 }
    requires block { (2 ≤ block) × (block < 6) }
    ensures { result ≡ directory_block name.now date.0 blocks block }
{
    let mut unit = linked_block(block);
    if block == FIRST {
        put_header(&mut unit, blocks, name, date);
    }
    unit
}

// A bit of a block of the map in the byte that has it.
fn bit_of(bit: u32) -> u8
    ensures { result ≡ 2 ^ (7 - bit % 8) }
{
    1 << (7 - bit % 8)
}

// Puts a bit of a block of the map to 1.
fn free_bit(unit: &mut [u8; BLOCK_BYTES], bit: u32)
    requires { bit < 4096 }
    ensures own { is_free_in unit.new bit ≡ true }
    ensures others { (other : ℕ) → other ≢ bit → is_free_in unit.new other ≡ is_free_in unit.old other }
{
    unit[(bit / 8) as usize] |= bit_of(bit);
}

// Whether a block is free.
fn is_free_block(blocks: u16, block: u32) -> bool
    ensures { result ≡ is_free_block blocks block }
{
    u32::from(first_free(blocks)) <= block && block < u32::from(blocks)
}

// A block of the map, by its number there.
fn map_block(blocks: u16, number: u32) -> [u8; BLOCK_BYTES]
    requires { number < 16 }
    ensures { IsMapBlock blocks number result }
{
    let mut unit = [0; BLOCK_BYTES];
    for bit in 0..BITS {
        if is_free_block(blocks, BITS * number + bit) {
            free_bit(&mut unit, bit);
        }
    }
    unit
}

// A block of the directory or of the map.
fn system_block(blocks: u16, name: &[u8], date: ProDate, block: u16) -> [u8; BLOCK_BYTES]
    requires name { length name.now ≤ 15 }
    requires block { (2 ≤ block) × (block < first_free blocks) }
    ensures { IsEmptyBlock name.now date.0 blocks block result }
{
    if block < MAP {
        directory_block(blocks, name, date, block)
    } else {
        map_block(blocks, u32::from(block - MAP))
    }
}

// Writes the directory and the map into an image of so many blocks.
pub(crate) fn write_system(blocks: u16, name: &[u8], date: ProDate, image: &mut [u8])
    requires image { length image.old ≡ 512 * blocks }
    requires blocks { 16 ≤ blocks }
    requires name { length name.now ≤ 15 }
    ensures { Filled 512 (IsEmptyBlock name.now date.0 blocks) 2 (first_free blocks) image.old image.new }
{
    for block in FIRST..first_free(blocks) {
        let unit = system_block(blocks, name, date, block);
        put_unit(image, BLOCK_BYTES * usize::from(block), &unit);
    }
}
