// The bits of the map, in the bytes of a VTOC.
ghost use Rattle.std.specs.Prelude.{◌≡◌, ◌<◌, ◌^◌, ◌%◌, length};
ghost use Rattle.dos_vtoc.specs.Vtoc.{byte_of_place, marked, released};

/// Four bytes of free bits for each track.
pub(crate) const FREE_BITS: usize = 0x38;

// The byte of the map that has the bit of a place, and that bit.
fn bit_of(place: u32) -> (usize, u8)
    requires { place < 560 }
    ensures at { result.0 ≡ byte_of_place place }
    ensures bit { result.1 ≡ 2 ^ (place % 8) }
    ensures within { result.0 < 256 }
{
    let sector = place % 16;
    let at = FREE_BITS + 4 * (place / 16) as usize + 1 - (sector / 8) as usize;
    (at, 1 << (sector % 8))
}

/// Marks the sector at a place used, in a VTOC of 256 bytes.
pub fn set_used(unit: &mut [u8], place: u32)
    requires unit { length unit.old ≡ 256 }
    requires place { place < 560 }
    ensures { unit.new ≡ marked unit.old place }
{
    let (at, bit) = bit_of(place);
    unit[at] &= !bit;
}

/// Marks the sector at a place free, in a VTOC of 256 bytes.
pub fn set_free(unit: &mut [u8], place: u32)
    requires unit { length unit.old ≡ 256 }
    requires place { place < 560 }
    ensures { unit.new ≡ released unit.old place }
{
    let (at, bit) = bit_of(place);
    unit[at] |= bit;
}
