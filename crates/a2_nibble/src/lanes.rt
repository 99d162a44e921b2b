ghost use Rattle.std.specs.Prelude.{◌≡◌, ℕ, ◌+◌, ◌<◌, ◌≤◌, ◌↔◌, IsTrue, All, length, slice_index};
ghost use Rattle.std.specs.Simd.Lanes.{Each1};
ghost use Rattle.a2_nibble.specs.DiskBytes.{value_of as value_of_byte};

use crate::FIELD_LEN;
use crate::table::{NO_VALUE, value_of};
use std::simd::prelude::*;

const LANES: usize = 16;
/// How many whole groups of lanes a field has.
const BLOCKS: usize = FIELD_LEN / LANES;

/// For each low half of a byte, a bit for each high half from 9 on with which it is a disk byte.
const LOW_HALVES: [u8; 16] = [
    0x00, 0x00, 0x44, 0x54, 0x44, 0x64, 0x77, 0x77, 0x00, 0x74, 0x75, 0x7F, 0x76, 0x7F, 0x7F, 0x7F,
];
/// The bit of each high half.
const HIGH_HALVES: [u8; 16] = [
    0x00, 0x00, 0x00, 0x00, 0x00, 0x00, 0x00, 0x00, 0x00, 0x01, 0x02, 0x04, 0x08, 0x10, 0x20, 0x40,
];

/// Whether all bytes of a field are disk bytes.
pub fn all_disk_bytes(field: &[u8; FIELD_LEN]) -> bool
    ensures { IsTrue result ↔ All (λ byte. value_of_byte byte < 64) field.now }
{
    for block in 0..BLOCKS {
        if !block_in_table(field, LANES * block) {
            return false;
        }
    }
    each_in_table(&field[LANES * BLOCKS..])
}

/// The same of any bytes, one at a time.
fn each_in_table(bytes: &[u8]) -> bool
    ensures { IsTrue result ↔ All (λ byte. value_of_byte byte < 64) bytes.now }
{
    bytes.iter().all(|byte| value_of(*byte) < NO_VALUE)
}

/// Whether the 16 bytes from `at` on are disk bytes.
fn block_in_table(field: &[u8], at: usize) -> bool
    requires { at + 16 ≤ length field.now }
    ensures { IsTrue result
        ↔ ((k : ℕ) → k < 16 → value_of_byte (slice_index field.now (at + k)) < 64) }
{
    let bytes = u8x16::from_slice(&field[at..]);
    let low = look_up(u8x16::from_array(LOW_HALVES), bytes & u8x16::splat(0x0F));
    let high = look_up(u8x16::from_array(HIGH_HALVES), bytes >> u8x16::splat(4));
    (low & high).simd_eq(u8x16::splat(0)).to_bitmask() == 0
}

/// The table's entry at each index.
fn look_up(table: u8x16, indexes: u8x16) -> u8x16
    requires long { length indexes ≡ 16 }
    requires inside { Each1 (λ index. index < 16) indexes }
    ensures long { length result ≡ 16 }
    ensures entries { (k : ℕ) → k < 16
        → slice_index result k ≡ slice_index table (slice_index indexes k) }
{
    table.swizzle_dyn(indexes)
}
