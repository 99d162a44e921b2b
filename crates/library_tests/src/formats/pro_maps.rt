//! The maps of free blocks.
ghost use Rattle.std.specs.Prelude.{◌≡◌, IfOk};

use a2_device::{Device, FaultDevice, WalkError};
use pro_bitmap::Bitmap;
use std::alloc::{AllocError, Allocator, Global};
use std::test::Fail;
use test_volumes::{LARGE_BYTES, block_device, put_in_block, seedlings_far_out, tree};

/// The first block of the bitmaps here.
const FIRST: u32 = 6;

// The bitmap from block 6 on of a volume as large as its image, with memory of its own.
pub fn bitmap_of<A: Allocator + Copy>(alloc: A, image: Vec<u8>) -> Result<Bitmap<A>, WalkError> {
    let Some(mut device) = block_device(image) else {
        return Err(WalkError::Device);
    };
    let total = device.places();
    if total < FIRST + 16 {
        return Err(WalkError::Device);
    }
    Bitmap::read(alloc, &mut device, FIRST, total)
}

// Whether so many blocks are free, and these are the next free ones from others on.
fn has_free(bitmap: &Bitmap, count: u32, rows: &[(u32, Option<u32>)]) -> bool {
    for (from, next) in rows {
        if bitmap.next_free(*from) != *next {
            return false;
        }
    }
    bitmap.free_count() == count
}

/// Of 280 blocks the first ten are used.
#[test]
fn reads_one_block(rt: HostRuntime) -> Result<(), Fail> {
    let bitmap = bitmap_of(rt.alloc(), tree(rt.alloc())?)?;
    let rows = [(0, Some(10)), (10, Some(10)), (279, Some(279)), (280, None)];
    assert!(rt; has_free(&bitmap, 270, &rows));
    Ok(())
}

/// Of 8,192 blocks the first eight and blocks 5,000 and 5,001 are used.
#[test]
fn reads_two_blocks(rt: HostRuntime) -> Result<(), Fail> {
    let bitmap = bitmap_of(rt.alloc(), seedlings_far_out(rt.alloc())?)?;
    let rows = [
        (0, Some(8)),
        (4_999, Some(4_999)),
        (5_000, Some(5_002)),
        (8_192, None),
    ];
    assert!(rt; has_free(&bitmap, 8_182, &rows));
    Ok(())
}

// The map of a volume of 8,192 blocks, of which those from 5,002 to 5,007 alone are free.
fn nearly_full(alloc: Global) -> Result<Bitmap, WalkError>
    ensures { IfOk result (λ map. (map.first ≡ 6) × (map.total ≡ 8192)) }
{
    let mut image = vec![in alloc; 0; LARGE_BYTES]?;
    put_in_block(&mut image, 7, 0x71, &[0x3f]);
    match block_device(image) {
        Some(mut device) => Bitmap::read(alloc, &mut device, FIRST, 8_192),
        None => Err(WalkError::Device),
    }
}

#[test]
fn marks_and_releases_blocks(rt: HostRuntime) -> Result<(), Fail> {
    let mut bitmap = nearly_full(rt.alloc())?;
    assert!(rt; !bitmap.is_free(5_001) && bitmap.is_free(5_002));
    bitmap.release(5_000);
    bitmap.mark(5_002);
    assert!(rt; bitmap.unit_of(5_000) == 7 && bitmap.bytes(7)[0x71] == 0x9f);
    Ok(())
}

#[test]
fn releases_a_block_of_the_first_unit(rt: HostRuntime) -> Result<(), Fail> {
    let mut bitmap = nearly_full(rt.alloc())?;
    bitmap.release(4_095);
    assert!(rt; bitmap.unit_of(4_095) == 6 && bitmap.bytes(6)[0x1ff] == 0x01);
    Ok(())
}

// The volume with the one file `BIG`, whose map has bits behind that of its last block.
fn with_more_bits(alloc: Global) -> Result<Vec<u8>, AllocError> {
    let mut image = tree(alloc)?;
    put_in_block(&mut image, 6, 0x23, &[0xff; 100]);
    Ok(image)
}

#[test]
fn bits_past_the_total_are_no_blocks(rt: HostRuntime) -> Result<(), Fail> {
    let bitmap = bitmap_of(rt.alloc(), with_more_bits(rt.alloc())?)?;
    assert!(rt; has_free(&bitmap, 270, &[(280, None)]));
    Ok(())
}

// Why a bitmap is not read from a device whose next read fails, and how many calls the device has refused.
fn failed(alloc: Global) -> Result<(Option<WalkError>, u64), AllocError> {
    let Some(inner) = block_device(seedlings_far_out(alloc)?) else {
        return Ok((None, 0));
    };
    let mut device = FaultDevice::new(inner);
    device.fail_read();
    let error = Bitmap::read(alloc, &mut device, FIRST, 8_192).err();
    Ok((error, device.faults()))
}

#[test]
fn a_failed_read_is_told(rt: HostRuntime) -> Result<(), Fail> {
    assert!(rt; failed(rt.alloc())? == (Some(WalkError::Device), 1));
    Ok(())
}
