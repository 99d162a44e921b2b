ghost use Rattle.std.specs.Prelude.{◌≡◌, ℕ, ◌+◌, ◌<◌, Option, Some, length, slice_get};
ghost use Rattle.a2_nibble.specs.Search.{FindsSector, FindsBelow};

use crate::address::number_at;
use crate::ring::byte_at;
use crate::search::{Field, MARK, TRACKS, field_from};
use crate::{SECTORS, TRACK_LEN};

/// Where the number of the sector stands in its address field.
const SECTOR_AT: usize = 7;

/// What `find_sector` answers for each sector, found in one pass over the track.
pub fn fields_of_track(nibbles: &[u8; TRACK_LEN], track: u8) -> [Option<Field>; SECTORS]
    ensures finds { (sector : ℕ) (answer : Option Field)
        → slice_get result sector ≡ Some answer
        → FindsSector nibbles.now track sector answer }
    // No other answers do.
    ensures only { (sector : ℕ) (answer other : Option Field)
        → slice_get result sector ≡ Some answer
        → FindsSector nibbles.now track sector other → other ≡ answer }
    ensures long { length result ≡ 16 }
{
    let mut fields = [None; SECTORS];
    if track >= TRACKS {
        return fields;
    }
    for place in 0..TRACK_LEN {
        if byte_at(nibbles, place) == MARK {
            keep_first(nibbles, place, track, &mut fields);
        }
    }
    fields
}

/// Keeps the field whose address field stands at `place`, if its sector has none yet.
fn keep_first(
    nibbles: &[u8; TRACK_LEN],
    place: usize,
    track: u8,
    fields: &mut [Option<Field>; SECTORS],
)
    requires place { place < 6656 }
    requires below { (sector : ℕ) (answer : Option Field)
        → slice_get fields.old sector ≡ Some answer
        → FindsBelow nibbles.now track sector place answer }
    ensures { (sector : ℕ) (answer : Option Field)
        → slice_get fields.new sector ≡ Some answer
        → FindsBelow nibbles.now track sector (place + 1) answer }
{
    let sector = number_at(nibbles, place + SECTOR_AT);
    let slot = usize::from(sector);
    if slot < SECTORS {
        fields[slot] = first_of(fields[slot], nibbles, place, track, sector);
    }
}

/// The field found before, or else the one whose address field stands at `place`.
fn first_of(
    found: Option<Field>,
    nibbles: &[u8; TRACK_LEN],
    place: usize,
    track: u8,
    sector: u8,
) -> Option<Field>
    requires place { place < 6656 }
    requires below { FindsBelow nibbles.now track sector place found }
    ensures { FindsBelow nibbles.now track sector (place + 1) result }
{
    match found {
        Some(field) => Some(field),
        None => field_from(nibbles, place, track, sector),
    }
}
