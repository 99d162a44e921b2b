// The pointers of a list.
ghost use Rattle.std.specs.Prelude.{◌≡◌, ◌<◌, ◌≤◌, ◌+◌, length, IfSome};
ghost use Rattle.dos_vtoc.specs.Vtoc.{link_of};
ghost use Rattle.dos_catalog.specs.Writes.{with_place};
ghost use Rattle.dos_tslist.specs.Pointers.{pointer_of, pair_of, pair_offset, link_offset, place_or_none};

/// How many pairs a list has.
pub const PAIRS: u32 = 122;

const FIRST_PAIR: usize = 0x0c;

const LINK: usize = 0x01;

/// The track and the sector that a pair of a list names, as they are stored; `None` where the track byte is 00.
pub fn pair(unit: &[u8], number: u32) -> Option<(u8, u8)>
    requires unit { length unit.now ≡ 256 }
    requires number { number < 122 }
    ensures { result ≡ pair_of unit.now number }
{
    pointer_at(unit, FIRST_PAIR + 2 * number as usize)
}

/// The track and the sector of the next list, as they are stored; `None` where the track byte is 00.
pub fn next(unit: &[u8]) -> Option<(u8, u8)>
    requires { length unit.now ≡ 256 }
    ensures { result ≡ link_of unit.now }
{
    pointer_at(unit, LINK)
}

/// Writes the place of a unit into a pair, as its track and sector; `None` writes 00 00.
pub fn set_pair(unit: &mut [u8], number: u32, place: Option<u32>)
    requires unit { length unit.old ≡ 256 }
    requires number { number < 122 }
    requires place { IfSome place (λ place. place < 560) }
    ensures { unit.new ≡ with_place (pair_offset number) (place_or_none place) unit.old }
{
    put_pointer(unit, FIRST_PAIR + 2 * number as usize, place);
}

/// Writes the place of the next list, as its track and sector; `None` writes 00 00.
pub fn set_next(unit: &mut [u8], place: Option<u32>)
    requires unit { length unit.old ≡ 256 }
    requires place { IfSome place (λ place. place < 560) }
    ensures { unit.new ≡ with_place link_offset (place_or_none place) unit.old }
{
    put_pointer(unit, LINK, place);
}

// The track and sector at an offset.
pub(crate) fn pointer_at(unit: &[u8], at: usize) -> Option<(u8, u8)>
    requires { at + 1 < length unit.now }
    ensures { result ≡ pointer_of unit.now at }
{
    match unit[at] {
        0 => None,
        track => Some((track, unit[at + 1])),
    }
}

// Writes a track and a sector at an offset.
fn put_pointer(unit: &mut [u8], at: usize, place: Option<u32>)
    requires within { at + 1 < length unit.old }
    requires place { IfSome place (λ place. place < 560) }
    ensures { unit.new ≡ with_place at (place_or_none place) unit.old }
{
    let place = place.unwrap_or(0);
    unit[at] = (place / 16) as u8;
    unit[at + 1] = (place % 16) as u8;
}
