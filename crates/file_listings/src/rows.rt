// The lines of entries that are told as data.
ghost use Rattle.std.specs.Prelude.{◌≡◌, ◌/◌, ◌%◌, [], ◌∷◌, Some};
ghost use Rattle.row_text.specs.Row.{row_view, volume_view};
ghost use Rattle.row_text.specs.Shown.{hex_digit};
ghost use Rattle.file_listings.specs.DosText.{letter_of};
ghost use Rattle.file_listings.specs.Known.{facts_of, parts_view, places_told};
ghost use Rattle.row_text.specs.Places.{places_view};
ghost use Rattle.file_listings.specs.Rows.{dos_row, head_line, pro_row, row_line, sum_text};

use crate::dos_text::shown_part;
use crate::facts::{KnownFile, KnownParts};
use crate::style::EntryStyle;
use file_formats::ListEntry;
use pro_dates::stamp;
use row_text::{
    CsvHeader, CsvRow, Digested, JsonRow, JsonVolume, LowerHex, Placed, Row, ShownBytes, hex_digit,
};
use std::alloc::Allocator;
use std::fmt;
use vol_layout::PlaceForm;

// The digest of a file, or hyphens in its place.
#[derive(Clone, Copy)]
struct SumText<'a>(&'a Digested);

impl fmt::Display for SumText<'_> {
    ghost output = { λ s. Some (sum_text s.0.now) };

    fn fmt<W: fmt::Write>(&self, f: &mut fmt::Formatter<W>) -> fmt::Result {
        match self.0 {
            Digested::Of(digest) => {
                let sum = LowerHex(&digest.sha256);
                write!(f, "{sum}")
            }
            Digested::Untold | Digested::Missing => write!(
                f,
                "----------------------------------------------------------------"
            ),
        }
    }
}

/// The line of an entry, with its end; of digests a directory has none.
#[derive(Clone, Copy)]
pub struct RowLine<'a> {
    pub style: EntryStyle,
    pub row: Row<'a>,
}

impl fmt::Display for RowLine<'_> {
    ghost output = { λ l. Some (row_line l.style (row_view l.row)) };

    fn fmt<W: fmt::Write>(&self, f: &mut fmt::Formatter<W>) -> fmt::Result {
        let row = self.row;
        let path = ShownBytes(row.path);
        match self.style {
            EntryStyle::Names if row.directory => writeln!(f, "{path}/"),
            EntryStyle::Names => writeln!(f, "{path}"),
            EntryStyle::Sums if row.directory => Ok(()),
            EntryStyle::Sums => {
                let sum = SumText(&row.digest);
                writeln!(f, "{sum}  {path}")
            }
            EntryStyle::Json => {
                let text = JsonRow(row);
                writeln!(f, "{text}")
            }
            EntryStyle::Csv { .. } => {
                let text = CsvRow(row);
                writeln!(f, "{text}")
            }
        }
    }
}

/// What stands before the lines of the entries.
#[derive(Clone, Copy)]
pub struct HeadLine<'a> {
    pub style: EntryStyle,
    pub volume: JsonVolume<'a>,
}

impl fmt::Display for HeadLine<'_> {
    ghost output = { λ l. Some (head_line l.style (volume_view l.volume)) };

    fn fmt<W: fmt::Write>(&self, f: &mut fmt::Formatter<W>) -> fmt::Result {
        match self.style {
            EntryStyle::Names | EntryStyle::Sums => Ok(()),
            EntryStyle::Json => {
                let volume = self.volume;
                writeln!(f, "{volume}")
            }
            EntryStyle::Csv { digests } => {
                let header = CsvHeader { digests };
                writeln!(f, "{header}")
            }
        }
    }
}

// The letter of a kind of file of DOS 3.3, as a text.
fn letter_text(kind: u8) -> &'static [u8]
    ensures { result.now ≡ letter_of kind ∷ [] }
{
    match kind {
        0x00 => b"T",
        0x01 => b"I",
        0x02 => b"A",
        0x04 => b"B",
        0x08 => b"S",
        0x10 => b"R",
        0x20 => b"a",
        0x40 => b"b",
        _ => b"?",
    }
}

// Where the parts of a file stand, as a row tells it.
fn places_told(form: PlaceForm, parts: KnownParts<'_>) -> Placed<'_>
    ensures { places_view result ≡ places_told form (parts_view parts.entry) }
{
    match parts {
        KnownParts::Untold => Placed::Untold,
        KnownParts::Missing => Placed::Missing,
        KnownParts::Of(parts) => Placed::Of { form, parts },
    }
}

/// The row of an entry of a DOS 3.3 volume.
pub fn dos_row<'a, A: Allocator>(entry: &'a ListEntry<A>, known: KnownFile<'a>) -> Row<'a>
    ensures { row_view result ≡ dos_row entry.now (facts_of known.entry) }
{
    Row {
        access: None,
        aux: known.facts.address,
        created: None,
        directory: false,
        eof: None,
        kind: entry.kind,
        locked: entry.locked,
        modified: None,
        path: shown_part(entry.path.as_bytes()),
        size: entry.size,
        stored: entry.path.as_bytes(),
        type_word: letter_text(entry.kind),
        digest: known.facts.digest,
        places: places_told(PlaceForm::Sector, known.parts),
    }
}

// A type of ProDOS: a dollar sign and two hexadecimal digits.
fn type_text(kind: u8) -> [u8; 3]
    ensures { result ≡ 36 ∷ hex_digit (kind / 16) ∷ hex_digit (kind % 16) ∷ [] }
{
    [b'$', hex_digit(kind / 16), hex_digit(kind % 16)]
}

/// The line of an entry of a ProDOS volume.
#[derive(Drop)]
pub struct ProRowLine<'a, 'k, A: Allocator> {
    pub style: EntryStyle,
    pub entry: &'a ListEntry<A>,
    pub known: KnownFile<'k>,
}

impl<A: Allocator> fmt::Display for ProRowLine<'_, '_, A> {
    ghost output = { λ l. Some (row_line l.style (pro_row l.entry.now (facts_of l.known))) };

    fn fmt<W: fmt::Write>(&self, f: &mut fmt::Formatter<W>) -> fmt::Result {
        let entry = self.entry;
        let type_word = type_text(entry.kind);
        let row = Row {
            access: Some(entry.access),
            aux: Some(entry.aux),
            created: stamp(entry.created),
            directory: entry.directory,
            eof: Some(entry.eof),
            kind: entry.kind,
            locked: entry.locked,
            modified: stamp(entry.modified),
            path: entry.path.as_bytes(),
            size: entry.size,
            stored: entry.path.as_bytes(),
            type_word: &type_word,
            digest: self.known.facts.digest,
            places: places_told(PlaceForm::Block, self.known.parts),
        };
        let line = RowLine {
            style: self.style,
            row,
        };
        write!(f, "{line}")
    }
}
