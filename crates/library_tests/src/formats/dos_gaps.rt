ghost use Rattle.std.specs.Prelude.{◌≡◌, ◌<◌, length, vec_len, IfOk};

use std::alloc::{AllocError, Global};
use test_volumes::{FIRST_CATALOG, dos_volume, put, put_entry};

// A list at a place: where the next list is, the number of the first unit that it names, and that unit's sector.
fn put_list(image: &mut [u8], place: usize, next: [u8; 2], first: u8, sector: [u8; 2])
    requires whole { length image.old ≡ 143360 }
    requires place { place < 560 }
{
    put(image, place, 0x01, &next);
    put(image, place, 0x05, &[first]);
    put(image, place, 0x0c, &sector);
}

// The volume of a file in two lists, at track 3 sectors 12 and 14, each of which names one sector of the body.
pub fn gaps(alloc: Global) -> Result<Vec<u8>, AllocError>
    ensures { IfOk result (λ image. vec_len image ≡ 143360) }
{
    let mut image = dos_volume(alloc, [0x0f, 0xff])?;
    put_entry(&mut image, FIRST_CATALOG, 0, [3, 12], 0, b"GAPS", 4);
    put_list(&mut image, 60, [3, 14], 0, [3, 13]);
    put_list(&mut image, 62, [0, 0], 0x7a, [3, 15]);
    Ok(image)
}
