// Sectors and blocks of an image by place.
ghost use Rattle.std.specs.Prelude.{
  ◌≡◌,
  ◌≢◌,
  ◌<◌,
  ◌/◌,
  ◌%◌,
  ◌*◌,
  ◌+◌,
  ◌++◌,
  ◌↔◌,
  IfSome,
  length,
  Some,
  None,
  IsTrue,
  IsFalse,
  IsOk,
  IsErr,
  OnOk,
  OnErr,
  slice_set,
};
ghost use Rattle.a2_image.specs.Image.{CanLend, HasSector, IsOfDisk, block_count};
ghost use Rattle.a2_image.specs.Blocks.{blocks, HasBlock};
ghost use Rattle.a2_device.specs.Skew.{physical_of_dos};
ghost use Rattle.a2_media.specs.DosPlaces.{sectors_by_place};
ghost use Rattle.a2_media.specs.Units.{unit_in};

use a2_device::{BLOCK_BYTES, DISK_BLOCKS, dos_to_phys};
use a2_image::{Image, ImageError, SECTOR_BYTES, sectors_of_block};
use std::alloc::Allocator;

/// What stands at a place: a sector of 256 bytes (DOS) or a block of 512 (ProDOS).
#[derive(Clone, Copy)]
pub enum UnitKind {
    Sector,
    Block,
}

// The track and the physical sector at a DOS place.
fn dos_sector(place: u32) -> (u8, u8)
    requires { place < 560 }
    ensures track { result.0 ≡ place / 16 }
    ensures sector { result.1 ≡ physical_of_dos (place % 16) }
    ensures exists { (result.0 < 35) × (result.1 < 16) }
{
    ((place / 16) as u8, dos_to_phys((place % 16) as u8))
}

// Copies the sector at a place into `unit`; a refusal is that of a sector that the image lacks.
pub(crate) fn read_sector<A: Allocator>(
    image: &Image<A>,
    place: u32,
    unit: &mut [u8],
) -> Result<(), ImageError>
    requires disk { IsOfDisk image.now }
    requires place { place < 560 }
    requires unit { length unit.old ≡ 256 }
    ensures value { OnOk result (unit_in (sectors_by_place image.now.sectors) place ≡ Some unit.new) }
    ensures none { OnErr result (unit_in (sectors_by_place image.now.sectors) place ≡ None) }
{
    let (track, sector) = dos_sector(place);
    if let Some(content) = image.sector_ref(track, sector) {
        unit.copy_from_slice(content);
        return Ok(());
    }
    let mut content = [0; SECTOR_BYTES];
    image.sector(track, sector, &mut content)?;
    unit.copy_from_slice(&content);
    Ok(())
}

// Writes a sector where it lies in the image; `false`, and the image is left, where none is lent.
fn write_lent<A: Allocator>(image: &mut Image<A>, track: u8, sector: u8, content: &[u8]) -> bool
    requires { length content.now ≡ 256 }
    ensures lends { IsTrue result ↔ CanLend image.old track sector }
    ensures written { IsTrue result
        → image.new.sectors ≡ slice_set image.old.sectors (16 * track + sector) (Some content.now) }
    ensures there { IsTrue result → HasSector image.old track sector }
    ensures unchanged { IsFalse result → image.new ≡ image.old }
    ensures kept { image.new.kept ≡ image.old.kept }
    ensures order { image.new.order ≡ image.old.order }
    ensures long { length image.new.bytes ≡ length image.old.bytes }
{
    // Called for what its contract says: the sectors of an image are those that its bytes hold.
    let _order = image.order();
    let lent = image.sector_mut(track, sector);
    if lent.is_empty() {
        return false;
    }
    lent.copy_from_slice(content);
    true
}

// Writes the sector at a place; a refusal is that of a sector that the image lacks, and leaves the image.
pub(crate) fn write_sector<A: Allocator>(
    image: &mut Image<A>,
    place: u32,
    unit: &[u8],
) -> Result<(), ImageError>
    requires disk { IsOfDisk image.old }
    requires place { place < 560 }
    requires unit { length unit.now ≡ 256 }
    ensures written { OnOk result
        (sectors_by_place image.new.sectors ≡ slice_set (sectors_by_place image.old.sectors) place (Some unit.now)) }
    ensures there { OnOk result (unit_in (sectors_by_place image.old.sectors) place ≢ None) }
    ensures none { OnErr result (unit_in (sectors_by_place image.old.sectors) place ≡ None) }
    ensures unchanged { OnErr result (image.new ≡ image.old) }
    ensures kept { image.new.kept ≡ image.old.kept }
    ensures order { image.new.order ≡ image.old.order }
    ensures long { length image.new.bytes ≡ length image.old.bytes }
{
    // Called for what its contract says: an image of a disk has 560 sectors.
    let _blocks = image.blocks();
    let (track, sector) = dos_sector(place);
    if write_lent(image, track, sector, unit) {
        return Ok(());
    }
    let mut content = [0; SECTOR_BYTES];
    content.copy_from_slice(unit);
    image.set_sector(track, sector, &content)
}

// The two sectors of a block of a disk as they lie in the image; `None` in nibble order.
fn lent_block<A: Allocator>(image: &Image<A>, number: u32) -> Option<(&[u8], &[u8])>
    requires disk { IsOfDisk image.now }
    requires number { number < 280 }
    ensures value { IfSome result (λ halves. unit_in (blocks image.now) number ≡ Some (halves.0.now ++ halves.1.now)) }
    ensures long { IfSome result (λ halves. (length halves.0.now ≡ 256) × (length halves.1.now ≡ 256)) }
{
    let (track, front, rear) = sectors_of_block(number);
    match (
        image.sector_ref(track, front),
        image.sector_ref(track, rear),
    ) {
        (Some(front), Some(rear)) => Some((front, rear)),
        _ => None,
    }
}

// Copies one part behind the other.
fn join(front: &[u8], rear: &[u8], unit: &mut [u8])
    requires { length unit.old ≡ length front.now + length rear.now }
    ensures { unit.new ≡ front.now ++ rear.now }
{
    let (head, tail) = unit.split_at_mut(front.len());
    head.copy_from_slice(front);
    tail.copy_from_slice(rear);
}

// Copies a block into `unit`; a refusal is that of a block of which the image lacks a sector.
pub(crate) fn read_block<A: Allocator>(
    image: &Image<A>,
    number: u32,
    unit: &mut [u8],
) -> Result<(), ImageError>
    requires number { number < block_count image.now }
    requires unit { length unit.old ≡ 512 }
    ensures value { OnOk result (unit_in (blocks image.now) number ≡ Some unit.new) }
    ensures none { OnErr result (unit_in (blocks image.now) number ≡ None) }
{
    if let Some(content) = image.block_ref(number) {
        unit.copy_from_slice(content);
        return Ok(());
    }
    if let Some((front, rear)) = lent_block(image, number) {
        join(front, rear, unit);
        return Ok(());
    }
    let mut content = [0; BLOCK_BYTES];
    image.block(number, &mut content)?;
    unit.copy_from_slice(&content);
    Ok(())
}

// Writes a block as two lent sectors; `false`, and the image is left, in nibble order and in an image of another size
// than a disk.
fn write_lent_block<A: Allocator>(image: &mut Image<A>, number: u32, unit: &[u8]) -> bool
    requires number { number < block_count image.old }
    requires unit { length unit.now ≡ 512 }
    ensures written { IsTrue result → blocks image.new ≡ slice_set (blocks image.old) number (Some unit.now) }
    ensures there { IsTrue result → HasBlock image.old number }
    ensures unchanged { IsFalse result → image.new ≡ image.old }
    ensures kept { image.new.kept ≡ image.old.kept }
    ensures order { image.new.order ≡ image.old.order }
    ensures long { length image.new.bytes ≡ length image.old.bytes }
{
    if image.blocks() != DISK_BLOCKS {
        return false;
    }
    let (track, front, rear) = sectors_of_block(number);
    let (head, tail) = unit.split_at(SECTOR_BYTES);
    write_lent(image, track, front, head) && write_lent(image, track, rear, tail)
}

// Writes a block; a refusal is that of a block of which the image lacks a sector, and leaves the image.
pub(crate) fn write_block<A: Allocator>(
    image: &mut Image<A>,
    number: u32,
    unit: &[u8],
) -> Result<(), ImageError>
    requires number { number < block_count image.old }
    requires unit { length unit.now ≡ 512 }
    ensures written { OnOk result (blocks image.new ≡ slice_set (blocks image.old) number (Some unit.now)) }
    ensures there { OnOk result (unit_in (blocks image.old) number ≢ None) }
    ensures none { OnErr result (unit_in (blocks image.old) number ≡ None) }
    ensures unchanged { OnErr result (image.new ≡ image.old) }
    ensures kept { image.new.kept ≡ image.old.kept }
    ensures order { image.new.order ≡ image.old.order }
    ensures long { length image.new.bytes ≡ length image.old.bytes }
{
    if write_lent_block(image, number, unit) {
        return Ok(());
    }
    let mut content = [0; BLOCK_BYTES];
    content.copy_from_slice(unit);
    image.set_block(number, &content)
}
