// The paths of files, as a listing shows them.
ghost use Rattle.std.specs.Prelude.{◌≡◌, Some, map};
ghost use Rattle.row_text.specs.Shown.{shown};
ghost use Rattle.file_listings.specs.Steps.{shown_path};

use crate::shown_part;
use row_text::ShownBytes;
use std::fmt;
use vol_layout::PlaceForm;

// The bytes of a path that are shown: a name of DOS is stored with spaces behind it.
fn path_part(form: PlaceForm, path: &[u8]) -> &[u8]
    ensures { map shown result.now ≡ shown_path form path.now }
{
    match form {
        PlaceForm::Sector => shown_part(path),
        PlaceForm::Block => path,
    }
}

/// The path of a file of DOS 3.3, whose places are sectors, or of ProDOS.
#[derive(Clone, Copy)]
pub struct ShownPath<'a> {
    pub form: PlaceForm,
    pub path: &'a [u8],
}

impl fmt::Display for ShownPath<'_> {
    ghost output = { λ p. Some (shown_path p.form p.path.now) };

    fn fmt<W: fmt::Write>(&self, f: &mut fmt::Formatter<W>) -> fmt::Result {
        let path = ShownBytes(path_part(self.form, self.path));
        write!(f, "{path}")
    }
}
