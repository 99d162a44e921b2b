// A disk image in memory.
ghost use Rattle.std.specs.Prelude.{
  ◌≡◌,
  ◌≢◌,
  ◌+◌,
  ◌*◌,
  ◌<◌,
  ◌≤◌,
  ◌↔◌,
  length,
  IsTrue,
  IsErrOf,
  IsOk,
  IfSome,
  IfNone,
  IfOk,
  IfErr,
  OnOk,
  OnErr,
  Some,
  None,
  Err,
  [],
  slice_set,
};
ghost use Rattle.std.specs.Borrow.{sem};
ghost use Rattle.a2_device.specs.Order.{IsImageLength};
ghost use Rattle.a2_image.specs.Image.{
  IsDisk,
  IsOfDisk,
  IsOutside,
  LacksSector,
  HasSector,
  HoldsSectors,
  CanLend,
  sector_in,
  sectors_by,
  block_count,
};
ghost use Rattle.a2_image.specs.Blocks.{bytes_of_block, blocks as blocks_of_image};
ghost use Rattle.a2_image.specs.Tracks.{WritesTrack};
ghost use Rattle.a2_image.specs.Kept.{HasField, IsKept, kept_sectors};
ghost use Rattle.a2_image.specs.KeptBytes.{HoldsKept};
ghost use Rattle.a2_image.specs.Opening.{RefusesToOpen};

use crate::ImageError;
use crate::nibble::{fields_of_disk, read_kept, write_kept};
use crate::part::{copy_part, replace};
use crate::plain::{read_plain, write_plain};
use a2_device::{BLOCK_BYTES, DISK_BLOCKS, Order, SECTORS, TRACKS};
use a2_nibble::Field;
use std::alloc::{Allocator, Global};
use std::marker::Model;

/// The bytes of a sector.
pub const SECTOR_BYTES: usize = 256;

/// The sectors of a disk, in memory.
#[derive(Drop)]
pub struct Image<A: Allocator = Global> {
    bytes: Vec<u8, A>,
    order: Order,
    // Where each sector stands, in nibble order; empty in another order.
    fields: Vec<Option<Field>, A>,
}

impl<A: Allocator> Model for Image<A> {
    ghost use Rattle.a2_image.specs.Image.{DiskImage};
    ghost use Rattle.a2_image.specs.Kept.{kept_sectors, kept_bytes, IsKept};

    ghost Value = { DiskImage };

    ghost view = { λ i. record {
      order = i.order;
      bytes = i.bytes.items;
      sectors = kept_sectors i.order i.bytes.items i.fields.items;
      kept = kept_bytes i.order i.bytes.items i.fields.items;
    } };

    ghost invariant = { λ i. IsKept i.order i.bytes.items i.fields.items };
}

impl<A: Allocator + Copy> Image<A> {
    /// Takes the bytes of an image; a refusal hands them back.
    ///
    /// # Errors
    /// `Length` where an image in this order has not so many bytes: 143,360 in DOS order, 16 to 65,535 blocks of 512
    /// in ProDOS order, 232,960 in nibble order. `Memory` in nibble order alone, which takes one block.
    pub fn open(bytes: Vec<u8, A>, order: Order) -> Result<Image<A>, (ImageError, Vec<u8, A>)>
        ensures takes { IsOk result → IsImageLength order (length bytes.items) }
        ensures order { IfOk result (λ image. image.order ≡ order) }
        ensures bytes { IfOk result (λ image. image.bytes ≡ bytes.items) }
        ensures holds { IfOk result (λ image. HoldsSectors order bytes.items image.sectors) }
        ensures kept { IfOk result (λ image. HoldsKept order bytes.items image.kept) }
        ensures refused { IfErr result (λ e. RefusesToOpen order (length bytes.items) e.0) }
        ensures back { IfErr result (λ e. e.1.items ≡ bytes.items) }
    {
        if !order.takes(bytes.len()) {
            return Err((ImageError::Length, bytes));
        }
        let alloc = *bytes.allocator();
        if !order.is_nibble() {
            let fields = Vec::new(alloc);
            return Ok(Image {
                bytes,
                order,
                fields,
            });
        }
        match fields_of_disk(alloc, bytes.as_slice()) {
            Ok(fields) => Ok(Image {
                bytes,
                order,
                fields,
            }),
            Err(_) => Err((ImageError::Memory, bytes)),
        }
    }

    // The handle by which the image has its memory.
    pub(crate) fn allocator(&self) -> A {
        *self.bytes.allocator()
    }

    // The image that keeps these.
    pub(crate) fn from_kept(bytes: Vec<u8, A>, order: Order, fields: Vec<Option<Field>, A>) -> Self
        requires { IsKept order bytes.items fields.items }
        ensures order { result.order ≡ order }
        ensures bytes { result.bytes ≡ bytes.items }
        ensures sectors { result.sectors ≡ kept_sectors order bytes.items fields.items }
    {
        Image {
            bytes,
            order,
            fields,
        }
    }
}

impl<A: Allocator> Image<A> {
    ghost use Rattle.a2_image.specs.Lending.{LendsSector};

    /// The order of the sectors in the image.
    pub fn order(&self) -> Order
        ensures value { result ≡ self.now.order }
        ensures long { IsImageLength self.now.order (length self.now.bytes) }
        ensures holds { HoldsSectors self.now.order self.now.bytes self.now.sectors }
        ensures kept { HoldsKept self.now.order self.now.bytes self.now.kept }
    {
        self.order
    }

    /// How many blocks of 512 bytes the image has: 280 but in ProDOS order, where it may be 16 to 65,535.
    pub fn blocks(&self) -> u32
        ensures value { result ≡ block_count self.now }
        ensures few { (16 ≤ result) × (result ≤ 65535) }
        ensures disk { IsOfDisk self.now → IsDisk self.now.sectors }
    {
        self.order.blocks(self.bytes.len())
    }

    /// Copies a physical sector of a track into `content`.
    ///
    /// # Errors
    /// `Number` for a track past 34 or a sector past 15, or where the image has not 280 blocks; `NoSector` where a
    /// track in nibble order has no such sector. `content` is unchanged.
    pub fn sector(
        &self,
        track: u8,
        sector: u8,
        content: &mut [u8; SECTOR_BYTES],
    ) -> Result<(), ImageError>
        ensures value { OnOk result (sector_in self.now.sectors track sector ≡ Some content.new) }
        ensures ok { IsOk result ↔ HasSector self.now track sector }
        ensures number { IsErrOf result ImageError.Number ↔ IsOutside self.now track sector }
        ensures none { IsErrOf result ImageError.NoSector ↔ LacksSector self.now track sector }
        ensures unchanged { OnErr result (content.new ≡ content.old) }
    {
        self.find(track, sector)?;
        self.read_found(track, sector, content);
        Ok(())
    }

    /// Writes a physical sector of a track; every other sector keeps its content. In nibble order no bytes change but
    /// the 343 disk bytes of the sector.
    ///
    /// # Errors
    /// `Number` for a track past 34 or a sector past 15, or where the image has not 280 blocks; `NoSector` where a
    /// track in nibble order has no such sector. The image is unchanged.
    pub fn set_sector(
        &mut self,
        track: u8,
        sector: u8,
        content: &[u8; SECTOR_BYTES],
    ) -> Result<(), ImageError>
        ensures written { OnOk result
            (self.new.sectors ≡ slice_set self.old.sectors (16 * track + sector) (Some content.now)) }
        ensures tracks { OnOk result
            (self.old.order ≡ Order.Nibble → WritesTrack self.old.bytes self.new.bytes track sector content.now) }
        ensures kept { self.new.kept ≡ self.old.kept }
        ensures order { self.new.order ≡ self.old.order }
        ensures long { length self.new.bytes ≡ length self.old.bytes }
        ensures ok { IsOk result ↔ HasSector self.old track sector }
        ensures number { IsErrOf result ImageError.Number ↔ IsOutside self.old track sector }
        ensures none { IsErrOf result ImageError.NoSector ↔ LacksSector self.old track sector }
        ensures unchanged { OnErr result (self.new ≡ self.old) }
    {
        self.find(track, sector)?;
        self.write_found(track, sector, content);
        Ok(())
    }

    // The bytes of an image of a disk that is not in nibble order.
    pub(crate) fn stored(&self) -> &[u8]
        requires plain { self.now.order ≢ Order.Nibble }
        requires disk { IsOfDisk self.now }
        ensures sectors { self.now.sectors ≡ sectors_by self.now.order result.now }
        ensures long { length result.now ≡ 143360 }
    {
        self.bytes.as_slice()
    }

    // Whether the image has the sector, or why not.
    pub(crate) fn find(&self, track: u8, sector: u8) -> Result<(), ImageError>
        ensures ok { IsOk result ↔ HasSector self.now track sector }
        ensures number { IsErrOf result ImageError.Number ↔ IsOutside self.now track sector }
        ensures none { IsErrOf result ImageError.NoSector ↔ LacksSector self.now track sector }
    {
        if track >= TRACKS || sector >= SECTORS || self.blocks() != DISK_BLOCKS {
            return Err(ImageError::Number);
        }
        if self.lacks(track, sector) {
            return Err(ImageError::NoSector);
        }
        Ok(())
    }

    // Whether the image lacks a sector of its disk.
    pub(crate) fn lacks(&self, track: u8, sector: u8) -> bool
        requires exists { (track < 35) × (sector < 16) }
        requires disk { IsOfDisk self.now }
        ensures { IsTrue result ↔ (sector_in self.now.sectors track sector ≡ None) }
    {
        self.order.is_nibble() && self.field(track, sector).is_none()
    }

    // The field that is kept for a sector, in nibble order.
    fn field(&self, track: u8, sector: u8) -> Option<Field>
        requires exists { (track < 35) × (sector < 16) }
        ensures some { IfSome result (λ field. HasField self.now track sector field) }
        ensures none { IfNone result (self.now.order ≡ Order.Nibble → sector_in self.now.sectors track sector ≡ None) }
    {
        if self.order.is_nibble() {
            self.fields[16 * usize::from(track) + usize::from(sector)]
        } else {
            None
        }
    }

    // Copies a sector of a disk.
    pub(crate) fn read(
        &self,
        track: u8,
        sector: u8,
        content: &mut [u8; SECTOR_BYTES],
    ) -> Result<(), ImageError>
        requires exists { (track < 35) × (sector < 16) }
        requires disk { IsOfDisk self.now }
        ensures value { OnOk result (sector_in self.now.sectors track sector ≡ Some content.new) }
        ensures err { OnErr result (result ≡ Err ImageError.NoSector) }
        ensures none { OnErr result (LacksSector self.now track sector) }
    {
        if self.lacks(track, sector) {
            return Err(ImageError::NoSector);
        }
        self.read_found(track, sector, content);
        Ok(())
    }

    // Copies a sector that the image has.
    pub(crate) fn read_found(&self, track: u8, sector: u8, content: &mut [u8; SECTOR_BYTES])
        requires { HasSector self.now track sector }
        ensures { sector_in self.now.sectors track sector ≡ Some content.new }
    {
        match self.field(track, sector) {
            Some(field) => read_kept(self.bytes.as_slice(), track, field, content),
            None => read_plain(self.bytes.as_slice(), self.order, track, sector, content),
        }
    }

    // Writes a sector that the image has.
    pub(crate) fn write_found(&mut self, track: u8, sector: u8, content: &[u8; SECTOR_BYTES])
        requires { HasSector self.old track sector }
        ensures written { self.new.sectors ≡ slice_set self.old.sectors (16 * track + sector) (Some content.now) }
        ensures tracks { self.old.order ≡ Order.Nibble
            → WritesTrack self.old.bytes self.new.bytes track sector content.now }
        ensures kept { self.new.kept ≡ self.old.kept }
        ensures order { self.new.order ≡ self.old.order }
        ensures long { length self.new.bytes ≡ length self.old.bytes }
    {
        match self.field(track, sector) {
            Some(field) => write_kept(self.bytes.as_mut_slice(), track, field, content),
            None => write_plain(
                self.bytes.as_mut_slice(),
                self.order,
                track,
                sector,
                content,
            ),
        }
    }

    // Copies a block of an image of another size than a disk.
    pub(crate) fn read_stored(&self, number: u32, block: &mut [u8; BLOCK_BYTES])
        requires number { number < block_count self.now }
        requires other_size { block_count self.now ≢ 280 }
        ensures { block.new ≡ bytes_of_block self.now.bytes number }
    {
        copy_part(self.bytes.as_slice(), BLOCK_BYTES * number as usize, block);
    }

    // Writes a block of an image of another size than a disk.
    pub(crate) fn write_stored(&mut self, number: u32, block: &[u8; BLOCK_BYTES])
        requires number { number < block_count self.old }
        requires other_size { block_count self.old ≢ 280 }
        ensures written { blocks_of_image self.new ≡ slice_set (blocks_of_image self.old) number (Some block.now) }
        ensures kept { self.new.kept ≡ self.old.kept }
        ensures order { self.new.order ≡ self.old.order }
        ensures long { length self.new.bytes ≡ length self.old.bytes }
    {
        replace(
            self.bytes.as_mut_slice(),
            BLOCK_BYTES * number as usize,
            block,
        );
    }

    // The bytes.
    pub(crate) fn as_slice(&self) -> &[u8]
        ensures { result.now ≡ self.now.bytes }
    {
        self.bytes.as_slice()
    }

    // How many bytes the image has.
    pub(crate) fn byte_count(&self) -> usize
        ensures value { result ≡ length self.now.bytes }
        ensures long { IsImageLength self.now.order result }
    {
        self.bytes.len()
    }

    /// The 256 bytes of a physical sector of a track, to be written where they lie; what is written there changes this
    /// sector alone (`a_lent_sector_is_one`). No byte where `sector_ref` lends none.
    pub fn sector_mut(&mut self, track: u8, sector: u8) -> &mut [u8]
        ensures* writes_back { sem 𝓛 (LendsSector A.row A.Allocator self.entry track sector result) }
        ensures content { CanLend self.old track sector → sector_in self.old.sectors track sector ≡ Some result.now }
        ensures long { CanLend self.old track sector → length result.now ≡ 256 }
        ensures none { (CanLend self.old track sector → ⊥) → result.now ≡ [] }
    {
        let (start, end) = self.lent_range(track, sector);
        self.bytes.slice_mut(start..end)
    }

    /// The bytes, in the order of the image.
    pub fn into_bytes(self) -> Vec<u8, A>
        ensures bytes { result.items ≡ self.bytes }
        ensures long { IsImageLength self.order (length result.items) }
    {
        let Image { bytes, .. } = self;
        bytes
    }
}
