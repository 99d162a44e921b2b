// How many blocks are free, by lanes.
ghost use Rattle.std.specs.Prelude.{◌≡◌, ◌≤◌, ◌+◌, length};
ghost use Rattle.pro_bitmap.specs.Bitmap.{free_below};
ghost use Rattle.pro_bitmap.specs.Count.{ones_from};

use crate::bitmap::{BLOCK_BYTES, is_free_in};
use std::simd::prelude::*;

const LANES: usize = 16;

/// How many blocks have their bits in one group of lanes.
const GROUP_BLOCKS: u32 = 128;

// How many of the first blocks of a unit are free.
pub(crate) fn free_in_unit(unit: &[u8; BLOCK_BYTES], blocks: u32) -> u32
    requires { blocks ≤ 4096 }
    ensures { result ≡ free_below unit.now blocks }
{
    let groups = blocks / GROUP_BLOCKS;
    let mut free = 0;
    for group in 0..groups {
        free += free_in_group(unit, LANES * group as usize);
    }
    for number in GROUP_BLOCKS * groups..blocks {
        if is_free_in(unit, number) {
            free += 1;
        }
    }
    free
}

// How many bits are 1 in sixteen bytes from here on.
fn free_in_group(unit: &[u8], at: usize) -> u32
    requires { at + 16 ≤ length unit.now }
    ensures { result ≡ ones_from unit.now at 16 }
{
    u8x16::from_slice(&unit[at..])
        .count_ones()
        .strict_reduce_sum() as u32
}
