ghost use Rattle.std.specs.Prelude.{◌≡◌, ℕ, ◌<◌, ◌≤◌, ◌⊎◌, ◌↔◌, List, Option, IfOk, IsErrOf, OnOk, OnErr};
ghost use Rattle.a2_nibble.specs.Sector.{IsFieldOf, SectorOf, HasNoSector};
ghost use Rattle.a2_nibble.specs.Sector.{WritesSector, KeepsOthers};
ghost use Rattle.a2_nibble.specs.Search.{FindsSector};
ghost use Rattle.a2_nibble.specs.declared.error.NibError.TheVariants.{Number, NoSector};

use crate::codec::{decode_sector, encode_sector};
use crate::error::NibError;
use crate::ring::{field_at, set_field};
use crate::search::{Field, TRACKS, find_sector};
use crate::{SECTOR_LEN, SECTORS, TRACK_LEN};

/// Reads the content of the sector. `Number` where the track is past 34 or the sector past 15,
/// `NoSector` where the track has no such sector. An `Err` changes nothing.
pub fn read_sector(
    nibbles: &[u8; TRACK_LEN],
    track: u8,
    sector: u8,
    content: &mut [u8; SECTOR_LEN],
) -> Result<(), NibError>
    ensures ok { OnOk result (SectorOf nibbles.now track sector content.new) }
    // It has no other content.
    ensures only { OnOk result ((other : List ℕ)
        → SectorOf nibbles.now track sector other → other ≡ content.new) }

    ensures number { IsErrOf result NibError.Number ↔ ((35 ≤ track) ⊎ (16 ≤ sector)) }
    ensures none { IsErrOf result NibError.NoSector
        ↔ ((track < 35) × (sector < 16) × HasNoSector nibbles.now track sector) }
    ensures err { OnErr result (content.new ≡ content.old) }
{
    let field = field_of(nibbles, track, sector)?;
    read_field(nibbles, field, content);
    Ok(())
}

/// Writes the content of the sector over the 343 disk bytes of its field, and over no other byte.
/// `Number` where the track is past 34 or the sector past 15, `NoSector` where the track has no
/// such sector. An `Err` changes nothing.
pub fn write_sector(
    nibbles: &mut [u8; TRACK_LEN],
    track: u8,
    sector: u8,
    content: &[u8; SECTOR_LEN],
) -> Result<(), NibError>
    ensures writes { OnOk result (WritesSector nibbles.old nibbles.new track sector content.now) }
    ensures ok { OnOk result (SectorOf nibbles.new track sector content.now) }
    ensures others { OnOk result (KeepsOthers nibbles.old nibbles.new track sector) }

    ensures number { IsErrOf result NibError.Number ↔ ((35 ≤ track) ⊎ (16 ≤ sector)) }
    ensures none { IsErrOf result NibError.NoSector
        ↔ ((track < 35) × (sector < 16) × HasNoSector nibbles.old track sector) }
    ensures err { OnErr result (nibbles.new ≡ nibbles.old) }
{
    let field = field_of(nibbles, track, sector)?;
    write_field(nibbles, field, content);
    Ok(())
}

/// Reads the content of a sector whose field is known, with no search.
pub fn read_field(nibbles: &[u8; TRACK_LEN], field: Field, content: &mut [u8; SECTOR_LEN])
    requires { (track : ℕ) × (sector : ℕ)
        × IsFieldOf nibbles.now track sector field.volume field.data_at }
    ensures content { (track sector : ℕ)
        → IsFieldOf nibbles.now track sector field.volume field.data_at
        → SectorOf nibbles.now track sector content.new }
    // It has no other content.
    ensures only { (track sector : ℕ) (other : List ℕ)
        → IsFieldOf nibbles.now track sector field.volume field.data_at
        → SectorOf nibbles.now track sector other → other ≡ content.new }
{
    decode_sector(&field_at(nibbles, usize::from(field.data_at)), content);
}

/// Writes the content of a sector whose field is known, with no search, over its 343 disk bytes.
pub fn write_field(nibbles: &mut [u8; TRACK_LEN], field: Field, content: &[u8; SECTOR_LEN])
    requires { (track : ℕ) × (sector : ℕ)
        × IsFieldOf nibbles.old track sector field.volume field.data_at }
    ensures writes { (track sector : ℕ)
        → IsFieldOf nibbles.old track sector field.volume field.data_at
        → WritesSector nibbles.old nibbles.new track sector content.now }
    ensures ok { (track sector : ℕ)
        → IsFieldOf nibbles.old track sector field.volume field.data_at
        → SectorOf nibbles.new track sector content.now }
    ensures others { (track sector : ℕ) → track < 256 → sector < 256
        → IsFieldOf nibbles.old track sector field.volume field.data_at
        → KeepsOthers nibbles.old nibbles.new track sector }
    // Every search answers what it did, so fields that are kept stay right.
    ensures answers { (track sector : ℕ) (answer : Option Field)
        → FindsSector nibbles.old track sector answer
        ↔ FindsSector nibbles.new track sector answer }
{
    set_field(nibbles, usize::from(field.data_at), &encode_sector(content));
}

/// The field of the sector, or why there is none.
fn field_of(nibbles: &[u8; TRACK_LEN], track: u8, sector: u8) -> Result<Field, NibError>
    ensures found { IfOk result (λ field.
        IsFieldOf nibbles.now track sector field.volume field.data_at) }
    ensures number { IsErrOf result NibError.Number ↔ ((35 ≤ track) ⊎ (16 ≤ sector)) }
    ensures none { IsErrOf result NibError.NoSector
        ↔ ((track < 35) × (sector < 16) × HasNoSector nibbles.now track sector) }
{
    if track >= TRACKS || usize::from(sector) >= SECTORS {
        return Err(NibError::Number);
    }
    match find_sector(nibbles, track, sector) {
        Some(field) => Ok(field),
        None => Err(NibError::NoSector),
    }
}
