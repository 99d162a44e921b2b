// The lines of a listing in CSV.
ghost use Rattle.std.specs.Prelude.{Some, flat_map, map};
ghost use Rattle.row_text.specs.Csv.{after_commas, csv_header, csv_row, digest_fields, doubled};
ghost use Rattle.row_text.specs.Csv.{number_or_empty, text_or_empty};
ghost use Rattle.row_text.specs.Row.{row_view};
ghost use Rattle.row_text.specs.Shown.{shown};

use crate::row::{Digested, Row};
use crate::shown::{LowerHex, ShownBytes, shown_byte};
use crate::wide::{wide_byte, wide_word};
use std::fmt;

/// The line of the names of the fields, without a line end.
#[derive(Clone, Copy)]
pub struct CsvHeader {
    /// Whether digests are told.
    pub digests: bool,
}

impl fmt::Display for CsvHeader {
    ghost output = { λ h. Some (csv_header h.digests) };

    fn fmt<W: fmt::Write>(&self, f: &mut fmt::Formatter<W>) -> fmt::Result {
        write!(
            f,
            "path,directory,type,kind,aux,access,locked,size,eof,created,modified"
        )?;
        if self.digests {
            write!(f, ",bytes,sha256")?;
        }
        Ok(())
    }
}

// A byte as it is shown in quotation marks: one of them is doubled.
#[derive(Clone, Copy)]
struct DoubledByte(u8);

impl fmt::Display for DoubledByte {
    ghost output = { λ b. Some (doubled (shown b.0)) };

    fn fmt<W: fmt::Write>(&self, f: &mut fmt::Formatter<W>) -> fmt::Result {
        let byte = shown_byte(self.0);
        match byte {
            b'"' => write!(f, "\"\""),
            _ => write!(f, "{}", char::from(byte)),
        }
    }
}

// The bytes of a text as they are shown in quotation marks.
#[derive(Clone, Copy)]
struct DoubledBytes<'a>(&'a [u8]);

impl fmt::Display for DoubledBytes<'_> {
    ghost output = { λ t. Some (flat_map doubled (map shown t.0.now)) };

    fn fmt<W: fmt::Write>(&self, f: &mut fmt::Formatter<W>) -> fmt::Result {
        let text = self.0;
        for byte in text {
            let doubled = DoubledByte(*byte);
            write!(f, "{doubled}")?;
        }
        Ok(())
    }
}

// A number, or nothing.
#[derive(Clone, Copy)]
struct NumberOrEmpty(Option<u32>);

impl fmt::Display for NumberOrEmpty {
    ghost output = { λ n. Some (number_or_empty n.0) };

    fn fmt<W: fmt::Write>(&self, f: &mut fmt::Formatter<W>) -> fmt::Result {
        match self.0 {
            Some(number) => write!(f, "{number}"),
            None => Ok(()),
        }
    }
}

// A text of sixteen bytes, or nothing.
#[derive(Clone, Copy)]
struct TextOrEmpty<'a>(&'a Option<[u8; 16]>);

impl fmt::Display for TextOrEmpty<'_> {
    ghost output = { λ t. Some (text_or_empty t.0.now) };

    fn fmt<W: fmt::Write>(&self, f: &mut fmt::Formatter<W>) -> fmt::Result {
        match self.0 {
            Some(bytes) => {
                let text = ShownBytes(bytes);
                write!(f, "{text}")
            }
            None => Ok(()),
        }
    }
}

// The fields of a digest, with a comma before each.
#[derive(Clone, Copy)]
struct DigestFields<'a>(&'a Digested);

impl fmt::Display for DigestFields<'_> {
    ghost output = { λ d. Some (after_commas (digest_fields d.0.now)) };

    fn fmt<W: fmt::Write>(&self, f: &mut fmt::Formatter<W>) -> fmt::Result {
        match self.0 {
            Digested::Untold => Ok(()),
            Digested::Missing => write!(f, ",,"),
            Digested::Of(digest) => {
                let count = digest.count;
                let sha256 = LowerHex(&digest.sha256);
                write!(f, ",{count},{sha256}")
            }
        }
    }
}

/// The line of an entry in CSV, without a line end.
#[derive(Clone, Copy)]
pub struct CsvRow<'a>(pub Row<'a>);

impl fmt::Display for CsvRow<'_> {
    ghost output = { λ r. Some (csv_row (row_view r.0)) };

    fn fmt<W: fmt::Write>(&self, f: &mut fmt::Formatter<W>) -> fmt::Result {
        let row = &self.0;
        let path = DoubledBytes(row.path);
        let directory = row.directory;
        let word = ShownBytes(row.type_word);
        let kind = row.kind;
        let aux = NumberOrEmpty(wide_word(row.aux));
        let access = NumberOrEmpty(wide_byte(row.access));
        let locked = row.locked;
        let size = row.size;
        let eof = NumberOrEmpty(row.eof);
        let created = TextOrEmpty(&row.created);
        let modified = TextOrEmpty(&row.modified);
        let digest = DigestFields(&row.digest);
        write!(f, "\"{path}\",{directory},{word},{kind},{aux},{access}")?;
        write!(f, ",{locked},{size},{eof},{created},{modified}{digest}")
    }
}
