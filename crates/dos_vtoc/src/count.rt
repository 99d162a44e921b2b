// How many sectors are free, by lanes.
ghost use Rattle.std.specs.Prelude.{◌≡◌, ◌≤◌, ◌<◌, ◌+◌, ◌*◌, length};
ghost use Rattle.dos_vtoc.specs.Vtoc.{free_count_of};
ghost use Rattle.dos_vtoc.specs.Count.{free_below, ones_of_track};

use crate::marks::FREE_BITS;
use std::simd::prelude::*;

const TRACKS: usize = 35;

const LANES: usize = 16;

/// A group of lanes has the four bytes of each of four tracks.
const GROUP_TRACKS: usize = 4;

/// How many whole groups the map has.
const GROUPS: usize = TRACKS / GROUP_TRACKS;

/// The bytes of a group that have free bits.
const USED: [u8; LANES] = [
    0xff, 0xff, 0, 0, 0xff, 0xff, 0, 0, 0xff, 0xff, 0, 0, 0xff, 0xff, 0, 0,
];

// How many sectors are free.
pub(crate) fn free_in_map(vtoc: &[u8; 256]) -> u32
    ensures { result ≡ free_count_of vtoc.now }
{
    let mut free = 0;
    for group in 0..GROUPS {
        free += free_in_group(vtoc, FREE_BITS + LANES * group);
    }
    for track in GROUP_TRACKS * GROUPS..TRACKS {
        let at = FREE_BITS + 4 * track;
        free += vtoc[at].count_ones() + vtoc[at + 1].count_ones();
    }
    free
}

// How many sectors are free on the four tracks whose bytes begin here.
fn free_in_group(vtoc: &[u8], at: usize) -> u32
    requires { at + 16 ≤ length vtoc.now }
    ensures { result ≡ ones_of_track vtoc.now at + ones_of_track vtoc.now (at + 4) + ones_of_track vtoc.now
        (at + 8) + ones_of_track vtoc.now (at + 12) }
{
    let used = u8x16::from_slice(&vtoc[at..]) & u8x16::from_array(USED);
    used.count_ones().strict_reduce_sum() as u32
}
