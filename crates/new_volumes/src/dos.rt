// The sectors of an empty DOS 3.3 volume.
ghost use Rattle.std.specs.Prelude.{◌≡◌, ◌+◌, ◌<◌, length};
ghost use Rattle.new_volumes.specs.DosUnits.{
  catalog_fields,
  empty_sector,
  free_map,
  is_for_files,
  map_byte,
  track_17,
  vtoc_fields,
};
ghost use Rattle.new_volumes.specs.Fields.{unit_with};
ghost use Rattle.new_volumes.specs.Filling.{Filled};

use crate::fields::{put, put_unit};
use a2_image::SECTOR_BYTES;

/// The place of the VTOC: track 17, sector 0.
const VTOC: usize = 272;

/// Where the map of free sectors begins in the VTOC, and how many bytes it has: four for each track.
const MAP: usize = 0x38;

const MAP_BYTES: usize = 140;

// Whether files may stand on a track.
fn is_for_files(data_disk: bool, track: usize) -> bool
    ensures { result ≡ is_for_files data_disk track }
{
    !(track == 0 || track == 17 || !data_disk && track < 3)
}

// A byte of the map of free sectors.
fn map_byte(data_disk: bool, at: usize) -> u8
    ensures { result ≡ map_byte data_disk at }
{
    if is_for_files(data_disk, at / 4) && at % 4 < 2 {
        0xff
    } else {
        0
    }
}

// The map of free sectors.
fn free_map(data_disk: bool) -> [u8; MAP_BYTES]
    ensures { result ≡ free_map data_disk }
{
    let mut map = [0; MAP_BYTES];
    for at in 0..MAP_BYTES {
        map[at] = map_byte(data_disk, at);
    }
    map
}

#[tactic(auto, unfolding(crate::specs::Fields::zeros))]
// The VTOC.
fn vtoc(number: u8, data_disk: bool) -> [u8; SECTOR_BYTES]
    ensures { result ≡ unit_with 256 (vtoc_fields number data_disk) }
{
    let mut unit = [0; SECTOR_BYTES];
    put(&mut unit, 0x01, &[17, 15, 3]);
    put(&mut unit, 0x06, &[number]);
    put(&mut unit, 0x27, &[122]);
    put(&mut unit, 0x30, &[18, 1]);
    put(&mut unit, 0x34, &[35, 16, 0, 1]);
    put(&mut unit, MAP, &free_map(data_disk));
    unit
}

#[tactic(auto, unfolding(crate::specs::Fields::zeros))]
// A catalog sector.
fn catalog_sector(sector: u8) -> [u8; SECTOR_BYTES]
    ensures { result ≡ unit_with 256 (catalog_fields sector) }
{
    let mut unit = [0; SECTOR_BYTES];
    if 1 < sector {
        put(&mut unit, 0x01, &[17, sector - 1]);
    }
    unit
}

// A sector of track 17.
fn track_17(number: u8, data_disk: bool, sector: u8) -> [u8; SECTOR_BYTES]
    ensures { result ≡ track_17 number data_disk sector }
{
    if sector == 0 {
        vtoc(number, data_disk)
    } else {
        catalog_sector(sector)
    }
}

// Writes the sectors of track 17 into a disk in DOS order.
pub(crate) fn write_track_17(number: u8, data_disk: bool, disk: &mut [u8])
    requires { length disk.old ≡ 143360 }
    ensures { Filled 256 (λ place unit. unit ≡ empty_sector number data_disk place) 272 288 disk.old disk.new }
{
    for sector in 0..16 {
        let unit = track_17(number, data_disk, sector);
        put_unit(disk, SECTOR_BYTES * (VTOC + usize::from(sector)), &unit);
    }
}
