// The units that start a machine, copied from another image.
ghost use Rattle.std.specs.Prelude.{◌≡◌, ◌<◌, ◌≤◌, ℕ, Err, None, Some, OnErr, OnOk, length};
ghost use Rattle.a2_image.specs.Image.{IsOfDisk, block_count};
ghost use Rattle.a2_image.specs.Blocks.{blocks};
ghost use Rattle.a2_media.specs.DosPlaces.{sectors_by_place};
ghost use Rattle.a2_media.specs.Units.{unit_in};
ghost use Rattle.new_volumes.specs.Filling.{Filled};

use crate::NewVolumeError;
use crate::fields::put_unit;
use a2_device::{BLOCK_BYTES, dos_to_phys};
use a2_image::{Image, SECTOR_BYTES};

/// The sectors of tracks 0 to 2.
const SECTORS: u32 = 48;

/// The blocks before the directory.
const BLOCKS: u32 = 2;

// Copies the sectors of tracks 0 to 2 of a disk into another in DOS order.
pub(crate) fn copy_sectors(image: &Image, disk: &mut [u8]) -> Result<(), NewVolumeError>
    requires from { IsOfDisk image.now }
    requires into { length disk.old ≡ 143360 }
    ensures copied { OnOk result (Filled 256
        (λ place unit. unit_in (sectors_by_place image.now.sectors) place ≡ Some unit) 0 48 disk.old disk.new) }
    ensures err { OnErr result (result ≡ Err NewVolumeError.NoSector) }
    ensures none { OnErr result ((place : ℕ) × (place < 48)
        × (unit_in (sectors_by_place image.now.sectors) place ≡ None)) }
{
    let mut unit = [0; SECTOR_BYTES];
    for place in 0..SECTORS {
        let sector = dos_to_phys((place % 16) as u8);
        match image.sector((place / 16) as u8, sector, &mut unit) {
            Ok(()) => put_unit(disk, SECTOR_BYTES * place as usize, &unit),
            Err(_) => return Err(NewVolumeError::NoSector),
        }
    }
    Ok(())
}

// Copies blocks 0 and 1 of an image into another in ProDOS order.
pub(crate) fn copy_blocks(image: &Image, volume: &mut [u8]) -> Result<(), NewVolumeError>
    requires from { 2 ≤ block_count image.now }
    requires into { 1024 ≤ length volume.old }
    ensures copied { OnOk result (Filled 512
        (λ place unit. unit_in (blocks image.now) place ≡ Some unit) 0 2 volume.old volume.new) }
    ensures err { OnErr result (result ≡ Err NewVolumeError.NoSector) }
    ensures none { OnErr result ((place : ℕ) × (place < 2) × (unit_in (blocks image.now) place ≡ None)) }
{
    let mut unit = [0; BLOCK_BYTES];
    for place in 0..BLOCKS {
        match image.block(place, &mut unit) {
            Ok(()) => put_unit(volume, BLOCK_BYTES * place as usize, &unit),
            Err(_) => return Err(NewVolumeError::NoSector),
        }
    }
    Ok(())
}
