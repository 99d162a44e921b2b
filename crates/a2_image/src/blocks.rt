// The blocks of an image.
ghost use Rattle.std.specs.Prelude.{
  ◌≡◌,
  ◌+◌,
  ◌*◌,
  ◌<◌,
  ◌≤◌,
  ◌↔◌,
  Some,
  None,
  IsTrue,
  IsOk,
  IsErrOf,
  OnOk,
  OnErr,
  length,
  slice_set,
};
ghost use Rattle.a2_image.specs.Image.{IsDisk, IsOfDisk, block_count};
ghost use Rattle.a2_image.specs.Blocks.{
  blocks as blocks_of_image,
  block_in,
  sector_of_half,
  with_block,
  HasBlock,
  LacksBlock,
};

use crate::part::{copy_part, replace};
use crate::{Image, ImageError, SECTOR_BYTES};
use a2_device::{BLOCK_BYTES, DISK_BLOCKS, block_to_phys};
use std::alloc::Allocator;

/// The track of a block of a disk, and its two physical sectors, the first half's first.
pub fn sectors_of_block(number: u32) -> (u8, u8, u8)
    requires { number < 280 }
    ensures front { 16 * result.0 + result.1 ≡ sector_of_half (2 * number) }
    ensures rear { 16 * result.0 + result.2 ≡ sector_of_half (2 * number + 1) }
    ensures exist { (result.0 < 35) × (result.1 < 16) × (result.2 < 16) }
{
    let (front, rear) = block_to_phys((number % 8) as u8);
    ((number / 8) as u8, front, rear)
}

impl<A: Allocator> Image<A> {
    /// Copies a block into `block`.
    ///
    /// # Errors
    /// `Number` for a number from `blocks()` on; `NoSector` where a track in nibble order lacks a sector of the block.
    /// `block` is unchanged.
    pub fn block(&self, number: u32, block: &mut [u8; BLOCK_BYTES]) -> Result<(), ImageError>
        ensures value { OnOk result (block_in self.now number ≡ Some block.new) }
        ensures ok { IsOk result ↔ HasBlock self.now number }
        ensures number { IsErrOf result ImageError.Number ↔ (block_count self.now ≤ number) }
        ensures none { IsErrOf result ImageError.NoSector ↔ LacksBlock self.now number }
        ensures unchanged { OnErr result (block.new ≡ block.old) }
    {
        self.find_block(number)?;
        if self.blocks() != DISK_BLOCKS {
            self.read_stored(number, block);
            return Ok(());
        }
        let (track, front, rear) = sectors_of_block(number);
        let mut half = [0; SECTOR_BYTES];
        self.read_found(track, front, &mut half);
        replace(block, 0, &half);
        self.read_found(track, rear, &mut half);
        replace(block, SECTOR_BYTES, &half);
        Ok(())
    }

    /// Writes a block; every other one keeps its content. In nibble order no bytes change but the disk bytes of
    /// sectors.
    ///
    /// # Errors
    /// `Number` for a number from `blocks()` on; `NoSector` where a track in nibble order lacks a sector of the block.
    /// The image is unchanged.
    pub fn set_block(&mut self, number: u32, block: &[u8; BLOCK_BYTES]) -> Result<(), ImageError>
        ensures written { OnOk result
            (blocks_of_image self.new ≡ slice_set (blocks_of_image self.old) number (Some block.now)) }
        ensures sectors { OnOk result
            (IsOfDisk self.old → self.new.sectors ≡ with_block self.old.sectors number block.now) }
        ensures kept { self.new.kept ≡ self.old.kept }
        ensures order { self.new.order ≡ self.old.order }
        ensures long { length self.new.bytes ≡ length self.old.bytes }
        ensures ok { IsOk result ↔ HasBlock self.old number }
        ensures number { IsErrOf result ImageError.Number ↔ (block_count self.old ≤ number) }
        ensures none { IsErrOf result ImageError.NoSector ↔ LacksBlock self.old number }
        ensures unchanged { OnErr result (self.new ≡ self.old) }
    {
        self.find_block(number)?;
        if self.blocks() == DISK_BLOCKS {
            self.write_halves(number, block);
        } else {
            self.write_stored(number, block);
        }
        Ok(())
    }

    // Whether the image has the block, or why not.
    fn find_block(&self, number: u32) -> Result<(), ImageError>
        ensures ok { IsOk result ↔ HasBlock self.now number }
        ensures number { IsErrOf result ImageError.Number ↔ (block_count self.now ≤ number) }
        ensures none { IsErrOf result ImageError.NoSector ↔ LacksBlock self.now number }
    {
        if number >= self.blocks() {
            return Err(ImageError::Number);
        }
        if self.lacks_block(number) {
            return Err(ImageError::NoSector);
        }
        Ok(())
    }

    // Whether the image lacks a sector of the block.
    fn lacks_block(&self, number: u32) -> bool
        requires { number < block_count self.now }
        ensures { IsTrue result ↔ (block_in self.now number ≡ None) }
    {
        if self.blocks() != DISK_BLOCKS {
            return false;
        }
        let (track, front, rear) = sectors_of_block(number);
        self.lacks(track, front) || self.lacks(track, rear)
    }

    // Writes the two sectors of a block.
    fn write_halves(&mut self, number: u32, block: &[u8; BLOCK_BYTES])
        requires there { HasBlock self.old number }
        requires disk { IsOfDisk self.old }
        requires sectors { IsDisk self.old.sectors }
        ensures written { blocks_of_image self.new ≡ slice_set (blocks_of_image self.old) number (Some block.now) }
        ensures sectors { self.new.sectors ≡ with_block self.old.sectors number block.now }
        ensures kept { self.new.kept ≡ self.old.kept }
        ensures order { self.new.order ≡ self.old.order }
        ensures long { length self.new.bytes ≡ length self.old.bytes }
    {
        let (track, front, rear) = sectors_of_block(number);
        let mut half = [0; SECTOR_BYTES];
        copy_part(block, 0, &mut half);
        self.write_found(track, front, &half);
        copy_part(block, SECTOR_BYTES, &mut half);
        self.write_found(track, rear, &half);
    }
}
