// The text of a listing of a ProDOS volume.
ghost use Rattle.std.specs.Prelude.{Some};
ghost use Rattle.file_listings.specs.ProText.{path_text, pro_file_line};

use file_formats::ListEntry;
use pro_dates::ShownDate;
use row_text::{ShownBytes, hex_digit};
use std::alloc::Allocator;
use std::fmt;

// A path as it is shown.
#[derive(Clone, Copy)]
struct ShownPath<'a> {
    path: &'a [u8],
    directory: bool,
}

impl fmt::Display for ShownPath<'_> {
    ghost output = { λ p. Some (path_text p.directory p.path.now) };

    fn fmt<W: fmt::Write>(&self, f: &mut fmt::Formatter<W>) -> fmt::Result {
        let path = ShownBytes(self.path);
        if self.directory {
            write!(f, "{path}/")
        } else {
            write!(f, "{path}")
        }
    }
}

/// The facts of one entry.
#[derive(Drop)]
pub struct CatalogLine<'a, A: Allocator>(pub &'a ListEntry<A>);

impl<A: Allocator> fmt::Display for CatalogLine<'_, A> {
    ghost output = { λ l. Some (pro_file_line l.0.now) };

    fn fmt<W: fmt::Write>(&self, f: &mut fmt::Formatter<W>) -> fmt::Result {
        let file = self.0;
        let mark = if file.locked { '*' } else { ' ' };
        let high = char::from(hex_digit(file.kind / 16));
        let low = char::from(hex_digit(file.kind % 16));
        let blocks = file.size;
        let eof = file.eof;
        let date = ShownDate(file.modified);
        let path = ShownPath {
            path: file.path.as_bytes(),
            directory: file.directory,
        };
        write!(f, "{mark}${high}{low} {blocks:5} {eof:8} {date} {path}")
    }
}
