// Where the parts of the file of an entry stand.
ghost use Rattle.std.specs.Prelude.{◌≡◌, Some};
ghost use Rattle.row_text.specs.Places.{kind_word, part_text};

use a2_device::{Part, PartKind};
use std::fmt;
use vol_layout::{PlaceForm, PlaceWord};

/// Whether the places of files are told, and those of an entry.
#[derive(Clone, Copy)]
pub enum Placed<'a> {
    /// Places are not told.
    Untold,
    /// They are, and those of this entry are not known.
    Missing,
    /// Those of the parts of this entry's file, in their order.
    Of { form: PlaceForm, parts: &'a [Part] },
}

/// The word for what a part is.
pub fn kind_word(kind: PartKind) -> &'static str
    ensures { result.now ≡ kind_word kind }
{
    match kind {
        PartKind::List => "list",
        PartKind::Master => "master",
        PartKind::Index => "index",
        PartKind::Body => "body",
    }
}

/// A part: what it is, its number among those of the kind, and its place.
#[derive(Clone, Copy)]
pub struct PartText {
    pub form: PlaceForm,
    pub part: Part,
}

impl fmt::Display for PartText {
    ghost output = { λ t. Some (part_text t.form t.part) };

    fn fmt<W: fmt::Write>(&self, f: &mut fmt::Formatter<W>) -> fmt::Result {
        let kind = kind_word(self.part.kind);
        let number = self.part.number;
        let place = PlaceWord {
            form: self.form,
            place: self.part.place,
        };
        write!(f, "{kind} {number} {place}")
    }
}
