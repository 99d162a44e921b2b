// The text of a listing of a DOS 3.3 volume.
ghost use Rattle.std.specs.Prelude.{◌≡◌, ◌≤◌, Some, IfOk, take, map, string_bytes, length, slice_index};
ghost use Rattle.row_text.specs.Shown.{shown};
ghost use Rattle.file_listings.specs.DosText.{file_line, letter_of, listing_text, name_part, name_text};

use file_formats::{ListEntry, Listing};
use row_text::{ShownBytes, shown_byte};
use std::alloc::{AllocError, Allocator};
use std::fmt;

// The letter of a kind of file.
fn kind_letter(kind: u8) -> char
    ensures { result ≡ letter_of kind }
{
    match kind {
        0x00 => 'T',
        0x01 => 'I',
        0x02 => 'A',
        0x04 => 'B',
        0x08 => 'S',
        0x10 => 'R',
        0x20 => 'a',
        0x40 => 'b',
        _ => '?',
    }
}

// How many bytes of a name stand before the spaces at its end.
fn shown_len(name: &[u8]) -> usize
    ensures within { result ≤ length name.now }
    ensures text { take result (map shown name.now) ≡ name_text name.now }
{
    let mut len = name.len();
    while len > 0 && shown_byte(name[len - 1]) == b' ' {
        len -= 1;
    }
    len
}

/// The bytes of a DOS 3.3 name that a listing shows: those before the spaces at its end.
pub fn shown_part(name: &[u8]) -> &[u8]
    ensures text { map shown result.now ≡ name_text name.now }
    ensures part { result.now ≡ name_part name.now }
{
    &name[..shown_len(name)]
}

// The line of one file.
#[derive(Drop)]
struct FileLine<'a, A: Allocator>(&'a ListEntry<A>);

impl<A: Allocator> fmt::Display for FileLine<'_, A> {
    ghost output = { λ l. Some (file_line l.0.now) };

    fn fmt<W: fmt::Write>(&self, f: &mut fmt::Formatter<W>) -> fmt::Result {
        let file = self.0;
        let mark = if file.locked { '*' } else { ' ' };
        let letter = kind_letter(file.kind);
        let sectors = file.size;
        let name = ShownBytes(shown_part(file.path.as_bytes()));
        write!(f, "{mark}{letter} {sectors:03} {name}")
    }
}

// The first byte, or 0 where there is none.
pub(crate) fn first_byte(bytes: &[u8]) -> u8
    ensures { result ≡ slice_index bytes.now 0 }
{
    match bytes {
        [first, ..] => *first,
        [] => 0,
    }
}

/// The lines of a listing of a DOS 3.3 volume: its number, a line for each file, and how many sectors are free.
///
/// # Errors
/// Want of memory alone.
pub fn dos_listing_text<A: Allocator + Copy>(
    alloc: A,
    listing: &Listing<A>,
) -> Result<String<A>, AllocError>
    ensures { IfOk result (λ text. string_bytes text ≡ listing_text listing.now) }
{
    let volume = first_byte(listing.volume.as_bytes());
    let mut text = String::new(alloc);
    writeln!(text, "DISK VOLUME {volume}")?;
    for file in &listing.entries {
        let line = FileLine(file);
        writeln!(text, "{line}")?;
    }
    let free = listing.free;
    writeln!(text, "FREE {free}")?;
    Ok(text)
}
