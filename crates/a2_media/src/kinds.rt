// What an image has of units of one kind: how many places, of what size, and what is read and written there.
ghost use Rattle.std.specs.Prelude.{◌≡◌, ◌<◌, Contains, length, OnOk, OnErr};
ghost use Rattle.a2_device.specs.Device.{unit_at};
ghost use Rattle.a2_media.specs.ImageDevice.{HasUnits, IsWritten, place_count, unit_bytes, units_of};
ghost use Rattle.a2_media.specs.Units.{AreUnits, stored_units, unreadable_places};

use crate::units::{UnitKind, read_block, read_sector, write_block, write_sector};
use a2_device::BLOCK_BYTES;
use a2_image::{Image, ImageError, SECTOR_BYTES};
use std::alloc::Allocator;

/// The places of a DOS volume: 35 tracks of 16 sectors.
const DOS_PLACES: u32 = 560;

// How many places an image has.
pub(crate) fn places_of<A: Allocator>(image: &Image<A>, kind: UnitKind) -> u32
    ensures { result ≡ place_count kind image.now }
{
    match kind {
        UnitKind::Sector => DOS_PLACES,
        UnitKind::Block => image.blocks(),
    }
}

// The bytes of a unit.
pub(crate) fn bytes_of(kind: UnitKind) -> usize
    ensures { result ≡ unit_bytes kind }
{
    match kind {
        UnitKind::Sector => SECTOR_BYTES,
        UnitKind::Block => BLOCK_BYTES,
    }
}

// Copies the unit at a place of an image into `unit`; a refusal is that of a place that can't be read.
pub(crate) fn read_unit<A: Allocator>(
    image: &Image<A>,
    kind: UnitKind,
    place: u32,
    unit: &mut [u8],
) -> Result<(), ImageError>
    requires has { HasUnits kind image.now }
    requires units { AreUnits (unit_bytes kind) (place_count kind image.now) (units_of kind image.now) }
    requires place { place < place_count kind image.now }
    requires unit { length unit.old ≡ unit_bytes kind }
    ensures value { OnOk result (unit.new ≡ unit_at (stored_units (unit_bytes kind) (units_of kind image.now)) place) }
    ensures readable { OnOk result (Contains (unreadable_places (units_of kind image.now)) place → ⊥) }
    ensures unreadable { OnErr result (Contains (unreadable_places (units_of kind image.now)) place) }
{
    match kind {
        UnitKind::Sector => read_sector(image, place, unit),
        UnitKind::Block => read_block(image, place, unit),
    }
}

// Writes the unit at a place of an image; a refusal is that of a place that can't be read, and leaves the image.
pub(crate) fn write_unit<A: Allocator>(
    image: &mut Image<A>,
    kind: UnitKind,
    place: u32,
    unit: &[u8],
) -> Result<(), ImageError>
    requires has { HasUnits kind image.old }
    requires units { AreUnits (unit_bytes kind) (place_count kind image.old) (units_of kind image.old) }
    requires place { place < place_count kind image.old }
    requires unit { length unit.now ≡ unit_bytes kind }
    ensures written { OnOk result (IsWritten kind place unit.now image.old image.new) }
    ensures readable { OnOk result (Contains (unreadable_places (units_of kind image.old)) place → ⊥) }
    ensures unreadable { OnErr result (Contains (unreadable_places (units_of kind image.old)) place) }
    ensures unchanged { OnErr result (image.new ≡ image.old) }
{
    match kind {
        UnitKind::Sector => write_sector(image, place, unit),
        UnitKind::Block => write_block(image, place, unit),
    }
}
