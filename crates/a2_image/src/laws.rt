// Laws of images.
ghost use Rattle.std.specs.Prelude.{◌≡◌, ◌<◌, ◌+◌, ◌*◌, ℕ, List, Option, Some, length, slice_set};
ghost use Rattle.a2_device.specs.Order.{IsImageLength};
ghost use Rattle.a2_image.specs.Image.{DiskImage, CanLend, HoldsSectors, block_count};
ghost use Rattle.a2_image.specs.KeptBytes.{HoldsKept};
ghost use Rattle.a2_image.specs.Lending.{with_lent};
ghost use Rattle.a2_image.specs.Blocks.{block_in, bytes_of_block};

use a2_device::Order;

/// A law: the bytes of an image hold one list of sectors at most.
pub fn sectors_are_one()
    ensures { (order : Order) (bytes : List ℕ) (a b : List (Option (List ℕ)))
        → HoldsSectors order bytes a → HoldsSectors order bytes b → a ≡ b }
{}

/// A law: the bytes of an image hold one list of the bytes that no write may change at most.
pub fn kept_bytes_are_one()
    ensures { (order : Order) (bytes : List ℕ) (a b : List (Option ℕ))
        → HoldsKept order bytes a → HoldsKept order bytes b → a ≡ b }
{}

/// A law: block b of an image in ProDOS order is at byte 512 b, also where it is two sectors of a disk.
pub fn prodos_blocks_lie_in_order()
    ensures { (image : DiskImage) (block : ℕ) → image.order ≡ Order.Prodos
        → IsImageLength image.order (length image.bytes)
        → HoldsSectors image.order image.bytes image.sectors
        → block < block_count image
        → block_in image block ≡ Some (bytes_of_block image.bytes block) }
{}

/// A law: 256 bytes that are left in a lent sector are that sector, and every other sector keeps its content.
pub fn a_lent_sector_is_one()
    ensures { (image : DiskImage) (track sector : ℕ) (content : List ℕ)
        → IsImageLength image.order (length image.bytes)
        → HoldsSectors image.order image.bytes image.sectors
        → CanLend image track sector → length content ≡ 256
        → (with_lent image track sector content).sectors
        ≡ slice_set image.sectors (16 * track + sector) (Some content) }
{}
