// The digest of a disk: of each of its sectors, or each of its blocks.
ghost use Rattle.std.specs.Prelude.{◌≡◌, ◌<◌};
ghost use Rattle.a2_image.specs.Blocks.{blocks};
ghost use Rattle.a2_image.specs.Image.{IsOfDisk, block_count};
ghost use Rattle.a2_media.specs.DosPlaces.{sectors_by_place};
ghost use Rattle.a2_media.specs.Units.{unit_in};
ghost use Rattle.image_survey.specs.Disk.{IsDiskDigest, place_count, units_of};
ghost use Rattle.image_survey.specs.DiskHashing.{Hashes};

use a2_device::{BLOCK_BYTES, DISK_BLOCKS, dos_to_phys};
use a2_image::{Image, SECTOR_BYTES};
use sha2::{Digest, Sha256};

/// How many sectors a disk has.
const DISK_SECTORS: u32 = 560;

// How many sectors or blocks the disk has.
fn places_of(image: &Image) -> u32
    ensures { result ≡ place_count image.now }
{
    let blocks = image.blocks();
    if blocks == DISK_BLOCKS {
        DISK_SECTORS
    } else {
        blocks
    }
}

// Hashes the sector at a place, and answers whether the image has it.
fn hash_sector(image: &Image, place: u32, hasher: &mut Sha256) -> bool
    requires disk { IsOfDisk image.now }
    requires place { place < 560 }
    ensures { Hashes (unit_in (sectors_by_place image.now.sectors) place) hasher.old hasher.new result }
{
    let track = (place / 16) as u8;
    let sector = dos_to_phys((place % 16) as u8);
    let mut content = [0; SECTOR_BYTES];
    match image.sector(track, sector, &mut content) {
        Ok(()) => {
            hasher.update(&content);
            true
        }
        Err(_) => false,
    }
}

// Hashes a block, and answers whether the image has it.
fn hash_block(image: &Image, number: u32, hasher: &mut Sha256) -> bool
    requires { number < block_count image.now }
    ensures { Hashes (unit_in (blocks image.now) number) hasher.old hasher.new result }
{
    let mut content = [0; BLOCK_BYTES];
    match image.block(number, &mut content) {
        Ok(()) => {
            hasher.update(&content);
            true
        }
        Err(_) => false,
    }
}

// Hashes the sector or the block at a place, and answers whether the image has it.
fn hash_place(image: &Image, place: u32, hasher: &mut Sha256) -> bool
    requires { place < place_count image.now }
    ensures { Hashes (unit_in (units_of image.now) place) hasher.old hasher.new result }
{
    if image.blocks() == DISK_BLOCKS {
        hash_sector(image, place, hasher)
    } else {
        hash_block(image, place, hasher)
    }
}

/// The digest of a disk: the SHA-256 of its sectors as DOS numbers them, or of its blocks where it is of another size,
/// in rising order. `None` where one of them is missing.
pub(crate) fn disk_digest(image: &Image) -> Option<[u8; 32]>
    ensures { IsDiskDigest image.now result }
{
    let mut hasher = Sha256::new();
    for place in 0..places_of(image) {
        if !hash_place(image, place, &mut hasher) {
            return None;
        }
    }
    Some(hasher.finalize())
}
