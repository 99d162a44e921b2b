ghost use Rattle.std.specs.Prelude.{◌≡◌, ℕ, List, ◌+◌, ◌*◌, ◌<◌, ◌≤◌, ◌↔◌, IsTrue, length, slice_index};
ghost use Rattle.a2_nibble.specs.DiskBytes.{value_of as value_of_byte};
ghost use Rattle.a2_nibble.specs.Field.{IsDataField, IsEncoded, IsByte, Gives, value_at};
ghost use Rattle.a2_nibble.specs.Written.{low_pair, written_value, swapped as swapped_pair};

use crate::copy::copy_to;
use crate::lanes::all_disk_bytes;
use crate::table::{disk_byte, value_of};
use crate::{FIELD_LEN, SECTOR_LEN};

/// The values of a sector: 86 groups of low bits, then the high six bits of each byte.
const VALUE_COUNT: usize = 342;

/// The groups of low bits. Each has those of one byte of each third of the sector.
const GROUP_COUNT: usize = 86;

const THIRDS: usize = 3;

/// The 343 disk bytes of a sector, checksum last. The bits that no byte of the sector has are 0.
/// (Beneath Apple DOS, chapter 3, 6-and-2 encoding.)
pub fn encode_sector(content: &[u8; SECTOR_LEN]) -> [u8; FIELD_LEN]
    ensures encoded { IsEncoded content.now result }
    // No other bytes are.
    ensures only { (bytes : List ℕ) → IsEncoded content.now bytes → bytes ≡ result }
{
    let values = written_values(content);
    let mut field = [0; FIELD_LEN];
    let mut before = 0;
    for k in 0..VALUE_COUNT {
        field[k] = disk_byte(values[k] ^ before);
        before = values[k];
    }
    field[VALUE_COUNT] = disk_byte(before);
    field
}

/// The values of a sector in the order in which they are written.
fn written_values(content: &[u8; SECTOR_LEN]) -> [u8; VALUE_COUNT]
    ensures value { (k : ℕ) → k < 342 → slice_index result k ≡ written_value content.now k }
    ensures fits { (k : ℕ) → k < 342 → slice_index result k < 64 }
{
    let groups = low_groups(content);
    let mut values = [0; VALUE_COUNT];
    copy_to(&mut values, 0, &groups);
    for i in 0..SECTOR_LEN {
        values[GROUP_COUNT + i] = content[i] / 4;
    }
    values
}

/// The groups of low bits of a sector.
fn low_groups(content: &[u8; SECTOR_LEN]) -> [u8; GROUP_COUNT]
    ensures { (j : ℕ) → j < 86 → slice_index result j ≡ low_pair content.now j
        + 4 * low_pair content.now (j + 86) + 16 * low_pair content.now (j + 172) }
{
    // The last third is two bytes short.
    let mut bytes = [0; THIRDS * GROUP_COUNT];
    copy_to(&mut bytes, 0, content);
    let mut groups = [0; GROUP_COUNT];
    for j in 0..GROUP_COUNT {
        groups[j] = swapped(bytes[j] % 4)
            + 4 * swapped(bytes[j + GROUP_COUNT] % 4)
            + 16 * swapped(bytes[j + 2 * GROUP_COUNT] % 4);
    }
    groups
}

/// Two bits in the other order.
fn swapped(pair: u8) -> u8
    requires { pair < 4 }
    ensures value { result ≡ swapped_pair pair }
    ensures fits { result < 4 }
{
    pair % 2 * 2 + pair / 2
}

/// The values that disk bytes stand for: each the exclusive or of all disk values up to it.
fn values_of(field: &[u8; FIELD_LEN]) -> [u8; VALUE_COUNT]
    ensures { (k : ℕ) → k < 342 → slice_index result k ≡ value_at field.now k }
{
    let mut values = [0; VALUE_COUNT];
    let mut value = 0;
    for k in 0..VALUE_COUNT {
        value ^= value_of(field[k]);
        values[k] = value;
    }
    values
}

/// Whether the disk bytes are all in the table, and the checksum is right.
pub fn is_data_field(field: &[u8; FIELD_LEN]) -> bool
    ensures { IsTrue result ↔ IsDataField field.now }
{
    all_disk_bytes(field) && value_of(field[VALUE_COUNT]) == values_of(field)[VALUE_COUNT - 1]
}

/// Reads the bytes of a sector from its disk bytes.
pub fn decode_sector(field: &[u8; FIELD_LEN], content: &mut [u8; SECTOR_LEN])
    requires { IsDataField field.now }
    ensures { Gives field.now content.new }
{
    let values = values_of(field);
    for third in 0..THIRDS {
        put_third(&values, third, content);
    }
}

/// Puts the bytes of one third of the sector of these values.
fn put_third(values: &[u8; VALUE_COUNT], third: usize, content: &mut [u8; SECTOR_LEN])
    requires third { third < 3 }
    requires values { (k : ℕ) → k < 342 → slice_index values.now k < 64 }
    ensures bytes { (i : ℕ) → 86 * third ≤ i → i < 86 * third + 86 → i < 256
        → IsByte (slice_index values.now) i (slice_index content.new i) }
    ensures others { (i : ℕ) → i < 86 * third
        → slice_index content.new i ≡ slice_index content.old i }
{
    let start = GROUP_COUNT * third;
    let end = (start + GROUP_COUNT).min(SECTOR_LEN);
    for i in start..end {
        let pair = (values[i - start] >> (2 * third)) % 4;
        content[i] = values[GROUP_COUNT + i] * 4 + swapped(pair);
    }
}
