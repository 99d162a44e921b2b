// ProDOS volumes.
ghost use Rattle.std.specs.Prelude.{
  ◌≡◌,
  ◌+◌,
  ◌*◌,
  ◌<◌,
  ◌≤◌,
  length,
  take,
  drop,
  slice_range,
  vec_len,
  IfOk,
  IfSome,
  IfNone,
  IsTrue,
};
ghost use Rattle.a2_device.specs.declared.order.Order.TheVariants.{Prodos};
ghost use Rattle.a2_device.specs.Order.{IsImageLength};

use crate::IMAGE_BYTES;
use a2_device::{Device, Order};
use a2_image::Image;
use a2_media::ImageDevice;
use std::alloc::{AllocError, Allocator, Global};

/// The bytes of an image of 8,192 blocks.
pub const LARGE_BYTES: usize = 4_194_304;

/// 1 May 1986, 12:30.
const DATE: [u8; 4] = [0xa1, 0xac, 0x1e, 0x0c];

/// Writes these bytes over an image of blocks, from an offset of a block on.
pub fn put_in_block(image: &mut [u8], block: usize, offset: usize, bytes: &[u8])
    requires block { 512 * block + 512 ≤ length image.old }
    requires within { offset + length bytes.now ≤ 512 }
    ensures written { slice_range image.new (512 * block + offset) (512 * block + offset + length bytes.now)
        ≡ bytes.now }
    ensures before { take (512 * block + offset) image.new ≡ take (512 * block + offset) image.old }
    ensures behind { drop (512 * block + offset + length bytes.now) image.new
        ≡ drop (512 * block + offset + length bytes.now) image.old }
{
    let start = 512 * block + offset;
    image[start..start + bytes.len()].copy_from_slice(bytes);
}

// The volume directory `WORK` in blocks 2 to 5, whose map begins at block 6; the bytes of its totals are given.
fn put_directory(image: &mut [u8], files: u8, blocks: [u8; 2])
    requires { 143360 ≤ length image.old }
    ensures { length image.new ≡ length image.old }
{
    put_in_block(image, 2, 0x02, &[3, 0, 0xf4, 0x57, 0x4f, 0x52, 0x4b]);
    put_in_block(image, 2, 0x22, &[0xc3, 0x27, 0x0d, files, 0, 6, 0]);
    put_in_block(image, 2, 0x29, &blocks);
    put_in_block(image, 3, 0x00, &[2, 0, 4, 0]);
    put_in_block(image, 4, 0x00, &[3, 0, 5, 0]);
    put_in_block(image, 5, 0x00, &[4, 0, 0, 0]);
}

/// A volume of 280 blocks with the one file `BIG`, a tree of 131,075 bytes: its master index is block 7, index 1 block
/// 9 and unit 256 of its body block 8.
pub fn tree<A: Allocator>(alloc: A) -> Result<Vec<u8, A>, AllocError>
    ensures { IfOk result (λ image. vec_len image ≡ 143360) }
{
    let mut image = vec![in alloc; 0; IMAGE_BYTES]?;
    put_directory(&mut image, 1, [0x18, 0x01]);
    put_in_block(&mut image, 2, 0x2b, &[0x33, 0x42, 0x49, 0x47]);
    put_in_block(&mut image, 2, 0x3b, &[0x06, 7, 0, 3, 0, 3, 0, 2]);
    put_in_block(&mut image, 2, 0x43, &DATE);
    put_in_block(&mut image, 2, 0x49, &[0xe3]);
    put_in_block(&mut image, 2, 0x4c, &DATE);
    put_in_block(&mut image, 2, 0x50, &[2, 0]);
    put_in_block(&mut image, 6, 0x01, &[0x3f]);
    put_in_block(&mut image, 6, 0x02, &[0xff; 33]);
    put_in_block(&mut image, 7, 0x01, &[9]);
    put_in_block(&mut image, 8, 0x00, b"abc");
    put_in_block(&mut image, 9, 0x00, &[8]);
    Ok(image)
}

/// The same volume with a subdirectory, `SUB`, in block 10, which has the one file `A`: a seedling in block 11.
pub fn tree_and_subdirectory<A: Allocator>(alloc: A) -> Result<Vec<u8, A>, AllocError>
    ensures { IfOk result (λ image. vec_len image ≡ 143360) }
{
    let mut image = tree(alloc)?;
    put_in_block(&mut image, 2, 0x25, &[2]);
    put_in_block(&mut image, 2, 0x52, &[0xd3, 0x53, 0x55, 0x42]);
    put_in_block(&mut image, 2, 0x62, &[0x0f, 10, 0, 1, 0, 0, 2, 0]);
    put_in_block(&mut image, 2, 0x6a, &DATE);
    put_in_block(&mut image, 2, 0x70, &[0xe3]);
    put_in_block(&mut image, 2, 0x73, &DATE);
    put_in_block(&mut image, 2, 0x77, &[2, 0]);
    put_in_block(&mut image, 6, 0x01, &[0x0f]);
    put_in_block(&mut image, 10, 0x04, &[0xe3, 0x53, 0x55, 0x42]);
    put_in_block(&mut image, 10, 0x23, &[0x27, 0x0d, 1]);
    put_in_block(&mut image, 10, 0x2b, &[0x11, 0x41]);
    put_in_block(&mut image, 10, 0x3b, &[0x04, 11, 0, 1, 0, 2, 0, 0]);
    put_in_block(&mut image, 10, 0x49, &[0xe3]);
    put_in_block(&mut image, 10, 0x50, &[10, 0]);
    put_in_block(&mut image, 11, 0x00, b"hi");
    Ok(image)
}

// The entry of a seedling of one byte, from an offset of block 2 on.
fn put_seedling(image: &mut [u8], offset: usize, name: u8, key: [u8; 2])
    requires image { 143360 ≤ length image.old }
    requires offset { offset ≤ 473 }
    ensures { length image.new ≡ length image.old }
{
    put_in_block(image, 2, offset, &[0x11, name]);
    put_in_block(image, 2, offset + 0x10, &[0x04, key[0], key[1], 1, 0, 1]);
    put_in_block(image, 2, offset + 0x1e, &[0xe3]);
    put_in_block(image, 2, offset + 0x25, &[2]);
}

/// A volume of 8,192 blocks, whose map has two of them, with the seedlings `A` in block 5,000 and `B` in block 5,001.
pub fn seedlings_far_out<A: Allocator>(alloc: A) -> Result<Vec<u8, A>, AllocError>
    ensures { IfOk result (λ image. vec_len image ≡ 4194304) }
{
    let mut image = vec![in alloc; 0; LARGE_BYTES]?;
    put_directory(&mut image, 2, [0x00, 0x20]);
    put_seedling(&mut image, 0x2b, b'A', [0x88, 0x13]);
    put_seedling(&mut image, 0x52, b'B', [0x89, 0x13]);
    put_in_block(&mut image, 6, 0x01, &[0xff; 511]);
    put_in_block(&mut image, 7, 0x00, &[0xff; 512]);
    put_in_block(&mut image, 7, 0x71, &[0x3f]);
    put_in_block(&mut image, 5000, 0x00, b"a");
    put_in_block(&mut image, 5001, 0x00, b"b");
    Ok(image)
}

/// The device over the blocks of an image in ProDOS order; `None` for an image of another length than 16 to 65,535
/// blocks.
pub fn block_device(image: Vec<u8>) -> Option<ImageDevice>
    ensures unit { IfSome result (λ device. (⟦<ImageDevice<Global> as Device>⟧.state device).unit_size ≡ 512) }
    ensures places { IfSome result (λ device. (16 ≤ (⟦<ImageDevice<Global> as Device>⟧.state device).places)
        × ((⟦<ImageDevice<Global> as Device>⟧.state device).places < 65536)) }
    ensures honest { IfSome result (λ device. IsTrue (⟦<ImageDevice<Global> as Device>⟧.state device).honest) }
    ensures refused { IfNone result (IsImageLength Prodos (vec_len image) → ⊥) }
{
    match Image::open(image, Order::Prodos) {
        Ok(image) => Some(ImageDevice::prodos(image)),
        Err(_) => None,
    }
}
