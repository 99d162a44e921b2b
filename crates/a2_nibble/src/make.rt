ghost use Rattle.std.specs.Prelude.{◌≡◌, ℕ, ◌+◌, ◌*◌, ◌<◌, ◌≤◌, ◌⊎◌, List, length, slice_get};
ghost use Rattle.a2_nibble.specs.Field.{IsEncoded};
ghost use Rattle.a2_nibble.specs.Track.{nibble_at, StandsAt, field_at};
ghost use Rattle.a2_nibble.specs.Sector.{SectorOf, IsFieldOf, data_mark};
ghost use Rattle.a2_nibble.specs.MadeTrack.{IsMadeTrack, IsGap, epilogue};

use crate::address::{ADDRESS_LEN, address_of};
use crate::codec::encode_sector;
use crate::copy::copy_to;
use crate::search::DATA_MARK;
use crate::{SECTOR_LEN, SECTORS, TRACK_LEN};

/// How each field of a made track ends.
const EPILOGUE: [u8; 3] = [0xDE, 0xAA, 0xEB];
/// What stands between fields.
const GAP: u8 = 0xFF;
/// Where the first address field of a made track stands.
const FIRST_AT: usize = 48;
/// How far it is from an address field to the next.
const STRIDE: usize = 396;

/// Makes a track of the sectors' contents, in the order of their numbers, and overwrites all that
/// stood in `nibbles`. (Beneath Apple DOS, chapter 3, "Track formatting"; the gaps are our own.)
pub fn make_track(
    volume: u8,
    track: u8,
    sectors: &[[u8; SECTOR_LEN]; SECTORS],
    nibbles: &mut [u8; TRACK_LEN],
)
    requires { track ≤ 34 }
    ensures made { IsMadeTrack nibbles.new volume track sectors.now }
    // No other bytes are.
    ensures only { (other : List ℕ) → length other ≡ 6656
        → IsMadeTrack other volume track sectors.now → other ≡ nibbles.new }
    ensures fields { (sector : ℕ) → sector < 16
        → IsFieldOf nibbles.new track sector volume (71 + 396 * sector) }
    ensures contents { (sector : ℕ) (content : List ℕ)
        → slice_get sectors.now sector ≡ Some content
        → SectorOf nibbles.new track sector content }
{
    nibbles.fill(GAP);
    for sector in 0..SECTORS {
        let place = FIRST_AT + STRIDE * sector;
        put_sector(
            nibbles,
            place,
            &address_of(volume, track, sector as u8),
            &sectors[sector],
        );
    }
}

/// Puts a sector's two fields into a gap.
fn put_sector(
    nibbles: &mut [u8; TRACK_LEN],
    place: usize,
    address: &[u8; ADDRESS_LEN],
    content: &[u8; SECTOR_LEN],
)
    requires { place + 396 ≤ 6656 }
    ensures address { StandsAt nibbles.new place address.now }
    ensures address_end { StandsAt nibbles.new (place + 11) epilogue }
    ensures mark { StandsAt nibbles.new (place + 20) data_mark }
    ensures encoded { IsEncoded content.now (field_at nibbles.new (place + 23)) }
    ensures data_end { StandsAt nibbles.new (place + 366) epilogue }
    ensures gaps { (q : ℕ) → q < 6656 → IsGap place q
        → nibble_at nibbles.new q ≡ nibble_at nibbles.old q }
{
    put(nibbles, place, address);
    put(nibbles, place + 11, &EPILOGUE);
    put(nibbles, place + 20, &DATA_MARK);
    put(nibbles, place + 23, &encode_sector(content));
    put(nibbles, place + 366, &EPILOGUE);
}

/// Writes bytes from a place on.
fn put(nibbles: &mut [u8; TRACK_LEN], place: usize, bytes: &[u8])
    requires { place + length bytes.now ≤ 6656 }
    ensures written { StandsAt nibbles.new place bytes.now }
    ensures others { (q : ℕ) → q < 6656 → (q < place) ⊎ (place + length bytes.now ≤ q)
        → nibble_at nibbles.new q ≡ nibble_at nibbles.old q }
{
    copy_to(nibbles, place, bytes);
}
