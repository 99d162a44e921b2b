ghost use Rattle.std.specs.Prelude.{◌≡◌, ℕ, ◌+◌, ◌%◌, ◌<◌, Option, IfSome, IfNone};
ghost use Rattle.a2_nibble.specs.Address.{address_field};
ghost use Rattle.a2_nibble.specs.Track.{StandsAt};
ghost use Rattle.a2_nibble.specs.Sector.{HasMark, IsFieldFrom, data_mark};
ghost use Rattle.a2_nibble.specs.Search.{FindsSector};

use crate::address::{ADDRESS_LEN, address_of, number_at};
use crate::codec::is_data_field;
use crate::ring::{byte_at, field_at, stands_at};
use crate::{SECTORS, TRACK_LEN};

/// The first byte of an address field and of a data field.
pub const MARK: u8 = 0xD5;
/// How a data field begins.
pub const DATA_MARK: [u8; 3] = [MARK, 0xAA, 0xAD];
/// How many bytes after an address field its data field may begin in.
const WINDOW: usize = 64;
/// The tracks of a disk.
pub const TRACKS: u8 = 35;

/// Where the 343 disk bytes of a sector stand, and the volume of its address field.
#[derive(Clone, Copy, PartialEq, Eq)]
pub struct Field {
    pub data_at: u16,
    pub volume: u8,
}

/// The field of the sector: that of the first place where its address field and its data field
/// count. `None` where there is none, or where the track is past 34 or the sector past 15.
pub fn find_sector(nibbles: &[u8; TRACK_LEN], track: u8, sector: u8) -> Option<Field>
    ensures finds { FindsSector nibbles.now track sector result }
    // No other answer does.
    ensures only { (answer : Option Field) → FindsSector nibbles.now track sector answer
        → answer ≡ result }
{
    if track >= TRACKS || usize::from(sector) >= SECTORS {
        return None;
    }
    for place in 0..TRACK_LEN {
        if byte_at(nibbles, place) == MARK {
            if let Some(field) = field_from(nibbles, place, track, sector) {
                return Some(field);
            }
        }
    }
    None
}

/// The sector's field, if its address field stands at `place` and both count.
pub fn field_from(nibbles: &[u8; TRACK_LEN], place: usize, track: u8, sector: u8) -> Option<Field>
    requires { place < 6656 }
    ensures found { IfSome result (λ field.
        IsFieldFrom nibbles.now track sector place field.volume field.data_at) }
    ensures none { IfNone result ((volume data_at : ℕ)
        → IsFieldFrom nibbles.now track sector place volume data_at → ⊥) }
{
    let volume = volume_at(nibbles, place, track, sector)?;
    let data_at = data_after(nibbles, place + ADDRESS_LEN)?;
    if is_data_field(&field_at(nibbles, usize::from(data_at))) {
        Some(Field { data_at, volume })
    } else {
        None
    }
}

/// The volume of the sector's address field, if it stands at `place`.
fn volume_at(nibbles: &[u8; TRACK_LEN], place: usize, track: u8, sector: u8) -> Option<u8>
    requires { place < 6656 }
    ensures found { IfSome result (λ volume.
        StandsAt nibbles.now place (address_field volume track sector)) }
    ensures none { IfNone result ((volume : ℕ) → volume < 256
        → StandsAt nibbles.now place (address_field volume track sector) → ⊥) }
{
    let volume = number_at(nibbles, place + 3);
    if stands_at(nibbles, place, &address_of(volume, track, sector)) {
        Some(volume)
    } else {
        None
    }
}

/// Where the disk bytes begin behind the first mark among the 64 bytes from `start` on, if it is
/// that of a data field.
fn data_after(nibbles: &[u8; TRACK_LEN], start: usize) -> Option<u16>
    requires { start < 7000 }
    ensures found { IfSome result (λ data_at.
        (data_at < 6656) × HasMark nibbles.now start data_at) }
    ensures none { IfNone result ((data_at : ℕ) → HasMark nibbles.now start data_at → ⊥) }
{
    for place in start..start + WINDOW {
        if byte_at(nibbles, place) == MARK {
            return data_behind(nibbles, place);
        }
    }
    None
}

/// Where the disk bytes begin, if a data field begins at `place`.
fn data_behind(nibbles: &[u8; TRACK_LEN], place: usize) -> Option<u16>
    requires { place < 7100 }
    ensures found { IfSome result (λ data_at. (data_at ≡ (place + 3) % 6656)
        × StandsAt nibbles.now place data_mark) }
    ensures none { IfNone result (StandsAt nibbles.now place data_mark → ⊥) }
{
    if stands_at(nibbles, place, &DATA_MARK) {
        Some(((place + 3) % TRACK_LEN) as u16)
    } else {
        None
    }
}
