// The text of a DOS 3.3 volume whose entries are told as data.
ghost use Rattle.std.specs.Prelude.{◌≡◌, IfOk, string_bytes};
ghost use Rattle.file_listings.specs.DosEntries.{entries_text, listed_volume};
ghost use Rattle.file_listings.specs.Known.{facts_in};
ghost use Rattle.row_text.specs.Row.{volume_view};

use crate::dos_text::first_byte;
use crate::known::KnownFiles;
use crate::rows::{HeadLine, RowLine, dos_row};
use crate::style::EntryStyle;
use file_formats::Listing;
use row_text::{FileSystem, JsonVolume, VolumeName};
use std::alloc::{AllocError, Allocator};

/// The sectors of a disk.
const SECTORS: u32 = 560;

// What is told of the volume.
fn listed_volume<A: Allocator>(listing: &Listing<A>) -> JsonVolume<'_>
    ensures { volume_view result ≡ listed_volume listing.now }
{
    JsonVolume {
        entries: listing.entries.len(),
        free: listing.free,
        file_system: FileSystem::Dos,
        places: SECTORS,
        volume: VolumeName::Number(first_byte(listing.volume.as_bytes())),
    }
}

/// The entries of a DOS 3.3 volume as data, with what is known of each file; nothing is known of those behind the last.
///
/// # Errors
/// Want of memory alone.
pub fn dos_entries_text<A: Allocator + Copy>(
    alloc: A,
    style: EntryStyle,
    listing: &Listing<A>,
    known: &KnownFiles<A>,
) -> Result<String<A>, AllocError>
    ensures { IfOk result (λ text. string_bytes text ≡ entries_text style listing.now (facts_in known.now)) }
{
    let head = HeadLine {
        style,
        volume: listed_volume(listing),
    };
    let mut text = String::new(alloc);
    write!(text, "{head}")?;
    for (number, entry) in listing.entries.iter().enumerate() {
        let line = RowLine {
            style,
            row: dos_row(entry, known.at(number)),
        };
        write!(text, "{line}")?;
    }
    Ok(text)
}
