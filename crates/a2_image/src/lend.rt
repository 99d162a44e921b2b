// Sectors and blocks that are lent.
ghost use Rattle.std.specs.Prelude.{◌≡◌, ◌↔◌, ◌≤◌, Some, IsTrue, IsSome, IfSome, length};
ghost use Rattle.a2_image.specs.Image.{sector_in, CanLend};
ghost use Rattle.a2_image.specs.Blocks.{block_in, CanLendBlock};
ghost use Rattle.a2_image.specs.Lending.{is_lent, lent_range};

use crate::Image;
use crate::image::SECTOR_BYTES;
use crate::plain::{lent_plain, stored_number};
use a2_device::{BLOCK_BYTES, DISK_BLOCKS, Order, SECTORS, TRACKS};
use std::alloc::Allocator;

impl<A: Allocator> Image<A> {
    /// The 256 bytes of a physical sector of a track, as they lie in the image. `None` in nibble order, for a track
    /// past 34 or a sector past 15, and where the image has not 280 blocks.
    pub fn sector_ref(&self, track: u8, sector: u8) -> Option<&[u8]>
        ensures value { IfSome result (λ content. sector_in self.now.sectors track sector ≡ Some content.now) }
        ensures long { IfSome result (λ content. length content.now ≡ 256) }
        ensures some { IsSome result ↔ CanLend self.now track sector }
    {
        if !self.can_lend(track, sector) {
            return None;
        }
        Some(lent_plain(self.stored(), self.order(), track, sector))
    }

    /// The 512 bytes of a block, as they lie in the image. `None` in another order than that of ProDOS, and for a
    /// number from `blocks()` on.
    pub fn block_ref(&self, number: u32) -> Option<&[u8]>
        ensures value { IfSome result (λ content. block_in self.now number ≡ Some content.now) }
        ensures long { IfSome result (λ content. length content.now ≡ 512) }
        ensures some { IsSome result ↔ CanLendBlock self.now number }
    {
        if self.order() != Order::Prodos || number >= self.blocks() {
            return None;
        }
        let start = BLOCK_BYTES * number as usize;
        Some(&self.as_slice()[start..start + BLOCK_BYTES])
    }

    // From which byte to which the image is lent for a sector: the sector's, or no byte.
    pub(crate) fn lent_range(&self, track: u8, sector: u8) -> (usize, usize)
        ensures range { result ≡ lent_range self.now track sector }
        ensures order { result.0 ≤ result.1 }
        ensures within { result.1 ≤ length self.now.bytes }
    {
        if !self.can_lend(track, sector) {
            let end = self.byte_count();
            return (end, end);
        }
        let start = SECTOR_BYTES * stored_number(self.order(), track, sector);
        (start, start + SECTOR_BYTES)
    }

    // Whether a sector lies in the image as it is.
    fn can_lend(&self, track: u8, sector: u8) -> bool
        ensures lends { IsTrue result ↔ CanLend self.now track sector }
        ensures value { result ≡ is_lent self.now track sector }
    {
        !self.order().is_nibble()
            && track < TRACKS
            && sector < SECTORS
            && self.blocks() == DISK_BLOCKS
    }
}
