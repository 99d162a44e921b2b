// The disk in an image.
ghost use Rattle.std.specs.Prelude.{◌≡◌, IsOk, IfOk, IfErr};
ghost use Rattle.a2_image.specs.Image.{HoldsSectors, IsDisk, IsOfDisk};
ghost use Rattle.a2_image.specs.KeptBytes.{HoldsKept};
ghost use Rattle.shop_replies.specs.Reply.{reply_to_image};
ghost use Rattle.shop_replies.specs.Disk.{IsDiskImage, RefusesDisk, most_bytes as most};

use crate::refusal::{Failure, Refusal};
use crate::reply::Reply;
use a2_device::{BLOCK_BYTES, DISK_BLOCKS, IMAGE_BYTES, NIBBLE_BYTES, Order};
use a2_image::{Image, ImageError};

/// The most blocks of an image in ProDOS order.
const MOST_BLOCKS: usize = 65_535;

/// The most bytes that an image in this order may have.
pub fn most_bytes(order: Order) -> usize
    ensures { result ≡ most order }
{
    match order {
        Order::Dos => IMAGE_BYTES,
        Order::Prodos => MOST_BLOCKS * BLOCK_BYTES,
        Order::Nibble => NIBBLE_BYTES,
    }
}

/// Takes the bytes of an image of a disk.
///
/// # Errors
/// `Length` where an image of a disk in this order has not so many bytes; `Memory` in nibble order alone.
pub fn open_disk(bytes: Vec<u8>, order: Order) -> Result<Image, ImageError>
    ensures takes { IsOk result → IsDiskImage order bytes.items }
    ensures order { IfOk result (λ image. image.order ≡ order) }
    ensures bytes { IfOk result (λ image. image.bytes ≡ bytes.items) }
    ensures holds { IfOk result (λ image. HoldsSectors order bytes.items image.sectors) }
    ensures kept { IfOk result (λ image. HoldsKept order bytes.items image.kept) }
    ensures disk { IfOk result (λ image. IsOfDisk image) }
    ensures sectors { IfOk result (λ image. IsDisk image.sectors) }
    ensures refused { IfErr result (RefusesDisk order bytes.items) }
{
    let image = match Image::open(bytes, order) {
        Ok(image) => image,
        Err((error, _)) => return Err(error),
    };
    if image.blocks() != DISK_BLOCKS {
        return Err(ImageError::Length);
    }
    Ok(image)
}

impl From<ImageError> for Reply {
    ghost from_gives = { λ error reply. reply ≡ reply_to_image error };

    fn from(error: ImageError) -> Reply {
        match error {
            ImageError::Memory => Reply::failed(Failure::Memory),
            ImageError::NoSector => Reply::refused(Refusal::NoSector),
            ImageError::Length | ImageError::Number => Reply::refused(Refusal::Length),
        }
    }
}
