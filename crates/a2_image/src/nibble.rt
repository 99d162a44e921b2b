// Images of disk bytes, which keep the field of each sector.
ghost use Rattle.std.specs.Prelude.{◌≡◌, ◌≢◌, ℕ, ◌<◌, IfOk, length};
ghost use Rattle.a2_nibble.specs.Field.{content_of};
ghost use Rattle.a2_nibble.specs.Sector.{IsFieldOf, WritesSector};
ghost use Rattle.a2_nibble.specs.Track.{field_at};
ghost use Rattle.a2_image.specs.Tracks.{track_of};
ghost use Rattle.a2_image.specs.Kept.{KeepsFields};
ghost use Rattle.a2_image.specs.Converting.{AreMadeFields};

use crate::SECTOR_BYTES;
use crate::part::replace;
use a2_device::TRACKS;
use a2_nibble::{Field, SECTORS, TRACK_LEN, fields_of_track, read_field, write_field};
use std::alloc::{AllocError, Allocator};

// How many sectors, and fields, a disk has.
const FIELDS: usize = SECTORS * TRACKS as usize;

// The bytes of a track.
fn copied_track(bytes: &[u8], track: u8) -> [u8; TRACK_LEN]
    requires whole { length bytes.now ≡ 232960 }
    requires exists { track < 35 }
    ensures { result ≡ track_of bytes.now track }
{
    let start = TRACK_LEN * usize::from(track);
    let mut nibbles = [0; TRACK_LEN];
    nibbles.copy_from_slice(&bytes[start..start + TRACK_LEN]);
    nibbles
}

// The fields of all sectors, by one pass over each track.
pub(crate) fn fields_of_disk<A: Allocator>(
    alloc: A,
    bytes: &[u8],
) -> Result<Vec<Option<Field>, A>, AllocError>
    requires { length bytes.now ≡ 232960 }
    ensures { IfOk result (λ fields. KeepsFields bytes.now fields.items) }
{
    let mut fields = Vec::with_capacity(alloc, FIELDS)?;
    for track in 0..TRACKS {
        let found = fields_of_track(&copied_track(bytes, track), track);
        fields.extend_from_slice(&found)?;
    }
    Ok(fields)
}

// Copies the sector of a field into `content`.
pub(crate) fn read_kept(bytes: &[u8], track: u8, field: Field, content: &mut [u8; SECTOR_BYTES])
    requires whole { length bytes.now ≡ 232960 }
    requires exists { track < 35 }
    requires field { (sector : ℕ) × IsFieldOf (track_of bytes.now track) track sector field.volume field.data_at }
    ensures { content.new ≡ content_of (field_at (track_of bytes.now track) field.data_at) }
{
    read_field(&copied_track(bytes, track), field, content);
}

// Writes the sector of a field; every other one keeps its content.
pub(crate) fn write_kept(bytes: &mut [u8], track: u8, field: Field, content: &[u8; SECTOR_BYTES])
    requires whole { length bytes.old ≡ 232960 }
    requires exists { track < 35 }
    requires field { (sector : ℕ) × IsFieldOf (track_of bytes.old track) track sector field.volume field.data_at }
    ensures writes { (sector : ℕ) → IsFieldOf (track_of bytes.old track) track sector field.volume field.data_at
        → WritesSector (track_of bytes.old track) (track_of bytes.new track) track sector content.now }
    ensures others { (other : ℕ) → other ≢ track → track_of bytes.new other ≡ track_of bytes.old other }
{
    let mut nibbles = copied_track(bytes, track);
    write_field(&mut nibbles, field, content);
    replace(bytes, TRACK_LEN * usize::from(track), &nibbles);
}

// The fields of tracks that are made anew.
pub(crate) fn made_fields<A: Allocator>(
    alloc: A,
    volume: u8,
) -> Result<Vec<Option<Field>, A>, AllocError>
    ensures { IfOk result (λ fields. AreMadeFields volume fields.items) }
{
    let mut fields = vec![in alloc; None; FIELDS]?;
    for number in 0..FIELDS {
        let data_at = (71 + 396 * (number % SECTORS)) as u16;
        fields[number] = Some(Field { data_at, volume });
    }
    Ok(fields)
}
