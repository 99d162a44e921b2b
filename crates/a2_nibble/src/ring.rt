ghost use Rattle.std.specs.Prelude.{◌≡◌, ℕ, ◌+◌, ◌<◌, ◌↔◌, IsTrue, length, slice_index};
ghost use Rattle.a2_nibble.specs.Track.{nibble_at, StandsAt, SameOutside, field_at as field_bytes};

use crate::copy::copy_to;
use crate::{FIELD_LEN, TRACK_LEN};

/// The byte at a place of the ring.
#[tactic(auto, unfolding(crate::specs::Track::nibble_at))]
pub fn byte_at(nibbles: &[u8; TRACK_LEN], place: usize) -> u8
    ensures { result ≡ nibble_at nibbles.now place }
{
    nibbles[place % TRACK_LEN]
}

/// Whether these bytes stand at a place.
pub fn stands_at(nibbles: &[u8; TRACK_LEN], place: usize, bytes: &[u8]) -> bool
    requires { place + length bytes.now < 20000 }
    ensures { IsTrue result ↔ StandsAt nibbles.now place bytes.now }
{
    for (k, byte) in bytes.iter().enumerate() {
        if byte_at(nibbles, place + k) != *byte {
            return false;
        }
    }
    true
}

/// The 343 bytes from a place on.
pub fn field_at(nibbles: &[u8; TRACK_LEN], place: usize) -> [u8; FIELD_LEN]
    requires { place < 6656 }
    ensures { result ≡ field_bytes nibbles.now place }
{
    let head = FIELD_LEN.min(TRACK_LEN - place);
    let mut field = [0; FIELD_LEN];
    copy_to(&mut field, 0, &nibbles[place..place + head]);
    copy_to(&mut field, head, &nibbles[..FIELD_LEN - head]);
    field
}

/// Writes 343 bytes from a place on.
pub fn set_field(nibbles: &mut [u8; TRACK_LEN], place: usize, field: &[u8; FIELD_LEN])
    requires { place < 6656 }
    ensures written { field_bytes nibbles.new place ≡ field.now }
    ensures others { SameOutside nibbles.old nibbles.new place }
{
    let head = FIELD_LEN.min(TRACK_LEN - place);
    copy_to(nibbles, place, &field[..head]);
    copy_to(nibbles, 0, &field[head..]);
}
