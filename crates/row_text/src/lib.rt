//! The rows of a listing as data: a line of JSON or of CSV for each entry of a volume.
//!
//! A row (`Row`) is what is told of one entry, as the fields of its directory have it. Its model
//! is `RowView` of `specs/Row.antt`, with lists in the place of slices. Its line of JSON
//! (`JsonRow`) is the compact text of one value, `row_data`: an object whose keys rise, so that
//! the line reads back as that value (`a_line_reads_back`). The line of CSV (`CsvRow`) has the
//! same fields in an order of its own (`specs/Csv.antt`). The first line of JSON tells the volume
//! (`JsonVolume`), that of CSV the names of the fields (`CsvHeader`). Where the places of a file are
//! told (`Placed`, `specs/Places.antt`), the parts of an entry are a list of texts in its JSON.
//!
//! A name on a disk may have any byte in it. Each byte is shown as a character that prints
//! (`specs/Shown.antt`), so names that differ may be shown alike; `stored` has the bytes
//! themselves, in hexadecimal digits.
//!
//! What always holds: nothing here takes memory or refuses, and what is told of an entry stands
//! on one line (`a_line_has_no_end_within`). Whoever writes the lines ends each.
#![tactic(auto)]

mod csv;
mod json_parts;
mod json_row;
mod json_text;
mod law;
mod places;
mod row;
mod shown;
mod volume;
mod wide;

pub use csv::{CsvHeader, CsvRow};
pub use json_row::JsonRow;
pub use law::{a_line_has_no_end_within, a_line_reads_back, a_row_tells_entries_apart};
pub use places::{Placed, kind_word};
pub use row::{Digest, Digested, Row};
pub use shown::{LowerHex, ShownBytes, UpperHex, hex_digit, shown_byte};
pub use volume::{FileSystem, JsonVolume, VolumeName};
