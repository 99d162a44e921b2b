// Images of one disk that have one sector behind the other.
ghost use Rattle.std.specs.Prelude.{◌≡◌, ◌+◌, ◌*◌, ◌<◌, Some, length, slice_set};
ghost use Rattle.a2_image.specs.Image.{number_in, sector_in, sectors_by};

use crate::SECTOR_BYTES;
use crate::part::replace;
use a2_device::Order;

// How many sectors such an image has before this one.
pub(crate) fn stored_number(order: Order, track: u8, sector: u8) -> usize
    requires exists { (track < 35) × (sector < 16) }
    ensures value { result ≡ number_in order (16 * track + sector) }
    ensures within { result < 560 }
{
    16 * usize::from(track) + usize::from(order.in_track(sector))
}

// Copies a sector into `content`.
pub(crate) fn read_plain(
    bytes: &[u8],
    order: Order,
    track: u8,
    sector: u8,
    content: &mut [u8; SECTOR_BYTES],
)
    requires whole { length bytes.now ≡ 143360 }
    requires exists { (track < 35) × (sector < 16) }
    ensures { sector_in (sectors_by order bytes.now) track sector ≡ Some content.new }
{
    content.copy_from_slice(lent_plain(bytes, order, track, sector));
}

// The bytes of a sector.
pub(crate) fn lent_plain(bytes: &[u8], order: Order, track: u8, sector: u8) -> &[u8]
    requires whole { length bytes.now ≡ 143360 }
    requires exists { (track < 35) × (sector < 16) }
    ensures value { sector_in (sectors_by order bytes.now) track sector ≡ Some result.now }
    ensures long { length result.now ≡ 256 }
{
    let start = SECTOR_BYTES * stored_number(order, track, sector);
    &bytes[start..start + SECTOR_BYTES]
}

// Writes a sector; every other one keeps its content.
pub(crate) fn write_plain(
    bytes: &mut [u8],
    order: Order,
    track: u8,
    sector: u8,
    content: &[u8; SECTOR_BYTES],
)
    requires whole { length bytes.old ≡ 143360 }
    requires exists { (track < 35) × (sector < 16) }
    ensures { sectors_by order bytes.new
        ≡ slice_set (sectors_by order bytes.old) (16 * track + sector) (Some content.now) }
{
    let start = SECTOR_BYTES * stored_number(order, track, sector);
    replace(bytes, start, content);
}
