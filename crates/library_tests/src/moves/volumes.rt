//! The format that the tests share, and the volume with `HELLO` after each of the writes that bring its parts home.
ghost use Rattle.std.specs.Prelude.{◌≡◌, ◌<◌, IfOk, length, vec_len};

use a2_device::{Device, FaultDevice};
use a2_media::ImageDevice;
use dos_format::Dos33;
use std::alloc::{AllocError, Allocator, Global};
use test_volumes::{FIRST_CATALOG, VTOC, dos_device, hello, put};
use vol_layout::Reserved;
use vol_mover::Options;

pub const KEEP: Options = Options { reclaim: false };

pub const RECLAIM: Options = Options { reclaim: true };

/// Writes without a limit.
pub const ALL: u64 = u64::MAX;

/// Where the map has the places of track 3.
pub const TRACK_3: usize = 0x44;

/// DOS 3.3, with nothing reserved.
pub fn dos33<A: Allocator + Copy>(alloc: A, data_disk: bool) -> Result<Dos33<A>, AllocError> {
    Dos33::new(alloc, data_disk, Reserved::none(alloc))
}

/// The device over the volume with `HELLO` whose next read fails.
pub fn failing_device(alloc: Global) -> Result<FaultDevice<ImageDevice>, AllocError>
    ensures unit { IfOk result (λ device. (⟦<FaultDevice<ImageDevice> as Device>⟧.state device).unit_size ≡ 256) }
    ensures places { IfOk result (λ device. (⟦<FaultDevice<ImageDevice> as Device>⟧.state device).places ≡ 560) }
{
    let mut device = FaultDevice::new(dos_device(hello(alloc)?));
    device.fail_read();
    Ok(device)
}

// Makes one of the eight writes that bring the parts of `HELLO` home.
fn make_write(image: &mut [u8], number: u64)
    requires { length image.old ≡ 143360 }
    ensures { length image.new ≡ 143360 }
{
    match number {
        1 => put(image, VTOC, TRACK_3, &[0x1f, 0xff]),
        2 => put(image, 61, 0x0c, &[3, 15]),
        3 => put(image, FIRST_CATALOG, 0x0b, &[3, 13]),
        4 => put(
            image,
            62,
            0x00,
            &[
                0x00, 0x03, 0x03, 0x00, 0xa9, 0x00, 0x60, 0, 0, 0, 0, 0, 0, 0,
            ],
        ),
        5 => put(image, 61, 0x0c, &[3, 14]),
        6 => put(
            image,
            63,
            0x00,
            &[0, 0, 0, 0, 0, 0, 0, 0, 0, 0, 0, 0, 3, 14],
        ),
        7 => put(image, FIRST_CATALOG, 0x0b, &[3, 15]),
        _ => put(image, VTOC, TRACK_3, &[0x3f, 0xff]),
    }
}

// The volume with `HELLO` after so many of the eight writes.
fn after_writes(alloc: Global, writes: u64) -> Result<Vec<u8>, AllocError>
    ensures { IfOk result (λ image. vec_len image ≡ 143360) }
{
    let mut image = hello(alloc)?;
    for number in 0..writes {
        make_write(&mut image, number + 1);
    }
    Ok(image)
}

/// Whether an image is that of the volume with `HELLO` after so many of the eight writes.
pub fn stands(alloc: Global, image: &[u8], writes: u64) -> Result<bool, AllocError> {
    Ok(image == after_writes(alloc, writes)?.as_slice())
}
