//! What tests are run on: volumes, made in memory from the formats, a device of which one call fails after so many
//! others, and an allocator that refuses chosen blocks. No program uses it.
//!
//! Each volume is the bytes of an image: in DOS order, 35 tracks of 16 sectors of 256 bytes; in ProDOS order, blocks of
//! 512 bytes. What is not named is 0.
//!
//! Of `Refusing` a contract says nothing of what its counter holds, so that the right blocks are refused is tested, and
//! that a collection over it is safe is proved.
#![tactic(auto)]

mod blocks;
mod late_failure;
mod pieces;
mod refusing;
mod rule;

ghost use Rattle.std.specs.Prelude.{◌≡◌, ◌+◌, ◌*◌, ◌<◌, ◌≤◌, length, take, drop, slice_range, vec_len, IfOk, IsTrue};

use a2_device::{Device, Order};
use a2_image::Image;
use a2_media::ImageDevice;
pub use blocks::{
    LARGE_BYTES, block_device, put_in_block, seedlings_far_out, tree, tree_and_subdirectory,
};
pub use late_failure::{Failure, LateFailure, late};
pub use pieces::{Piece, hello_with, put_pieces, put_writes, sub_with, tree_with};
pub use refusing::Refusing;
use std::alloc::{AllocError, Allocator, Global};

/// The bytes of a disk's image.
pub const IMAGE_BYTES: usize = 143_360;

/// The place of the volume table of contents: track 17, sector 0.
pub const VTOC: usize = 272;

/// The place of the first catalog sector: track 17, sector 15.
pub const FIRST_CATALOG: usize = 287;

/// Where a catalog sector has its first entry.
pub const FIRST_ENTRY: usize = 0x0b;

/// The bytes of an entry.
pub const ENTRY_BYTES: usize = 35;

/// Writes these bytes over an image, from an offset of a sector on.
pub fn put(image: &mut [u8], place: usize, offset: usize, bytes: &[u8])
    requires whole { length image.old ≡ 143360 }
    requires place { place < 560 }
    requires within { offset + length bytes.now ≤ 256 }
    ensures written { slice_range image.new (256 * place + offset) (256 * place + offset + length bytes.now)
        ≡ bytes.now }
    ensures before { take (256 * place + offset) image.new ≡ take (256 * place + offset) image.old }
    ensures behind { drop (256 * place + offset + length bytes.now) image.new
        ≡ drop (256 * place + offset + length bytes.now) image.old }
{
    let start = 256 * place + offset;
    image[start..start + bytes.len()].copy_from_slice(bytes);
}

// The map of a volume: every sector is free but those of tracks 0, 1, 2 and 17 and, in part, of track 3.
fn put_map(image: &mut [u8], track_3: [u8; 2])
    requires { length image.old ≡ 143360 }
{
    put(image, VTOC, 0x44, &track_3);
    for track in 4..35 {
        if track != 17 {
            put(image, VTOC, 0x38 + 4 * track, &[0xff, 0xff]);
        }
    }
}

// The links of the catalog's sectors, from 15 down to 1.
fn put_links(image: &mut [u8])
    requires { length image.old ≡ 143360 }
{
    put(image, VTOC, 0x01, &[17, 15]);
    for sector in 2..16 {
        put(image, VTOC + sector, 0x01, &[17, (sector - 1) as u8]);
    }
}

/// A DOS 3.3 volume, number 254, with an empty catalog of 15 sectors; the two used map bytes of track 3 are given.
pub fn dos_volume<A: Allocator>(alloc: A, track_3: [u8; 2]) -> Result<Vec<u8, A>, AllocError>
    ensures { IfOk result (λ image. vec_len image ≡ 143360) }
{
    let mut image = vec![in alloc; 0; IMAGE_BYTES]?;
    put(&mut image, VTOC, 0x03, &[3]);
    put(&mut image, VTOC, 0x06, &[254]);
    put(&mut image, VTOC, 0x27, &[122]);
    put(&mut image, VTOC, 0x30, &[18, 1, 0, 0, 35, 16, 0, 1]);
    put_map(&mut image, track_3);
    put_links(&mut image);
    Ok(image)
}

/// An entry of the catalog sector at a place: where its list is, its kind, its name and its length in sectors. The name
/// gets its high bits and is padded with spaces.
pub fn put_entry(
    image: &mut [u8],
    place: usize,
    slot: usize,
    list: [u8; 2],
    kind: u8,
    name: &[u8],
    sectors: u8,
)
    requires whole { length image.old ≡ 143360 }
    requires place { place < 560 }
    requires slot { slot < 7 }
    requires name { length name.now ≤ 30 }
    ensures before { take (256 * place + 11 + 35 * slot) image.new ≡ take (256 * place + 11 + 35 * slot) image.old }
    ensures behind { drop (256 * place + 46 + 35 * slot) image.new ≡ drop (256 * place + 46 + 35 * slot) image.old }
{
    let mut entry = [0xa0; ENTRY_BYTES];
    entry[0] = list[0];
    entry[1] = list[1];
    entry[2] = kind;
    for (i, byte) in name.iter().enumerate() {
        entry[3 + i] = *byte | 0x80;
    }
    entry[33] = sectors;
    entry[34] = 0;
    put(image, place, FIRST_ENTRY + ENTRY_BYTES * slot, &entry);
}

/// The volume with the one file `HELLO`, locked and binary: its list at track 3 sector 14, its body at track 3 sector
/// 15.
pub fn hello<A: Allocator>(alloc: A) -> Result<Vec<u8, A>, AllocError>
    ensures { IfOk result (λ image. vec_len image ≡ 143360) }
{
    let mut image = dos_volume(alloc, [0x3f, 0xff])?;
    put_entry(&mut image, FIRST_CATALOG, 0, [3, 14], 0x84, b"HELLO", 2);
    put(&mut image, 62, 0x0c, &[3, 15]);
    put(
        &mut image,
        63,
        0x00,
        &[0x00, 0x03, 0x03, 0x00, 0xa9, 0x00, 0x60],
    );
    Ok(image)
}

/// The device over a volume in DOS order.
pub fn dos_device(image: Vec<u8>) -> ImageDevice
    requires { vec_len image ≡ 143360 }
    ensures unit { (⟦<ImageDevice<Global> as Device>⟧.state result).unit_size ≡ 256 }
    ensures places { (⟦<ImageDevice<Global> as Device>⟧.state result).places ≡ 560 }
    ensures honest { IsTrue (⟦<ImageDevice<Global> as Device>⟧.state result).honest }
{
    match Image::open(image, Order::Dos) {
        Ok(image) => ImageDevice::dos(image),
        Err(_) => unreachable!(),
    }
}
