// The line of an entry in JSON, its members in rising order of their keys.
//
// Each part below is that of the members from one key on, with the closing brace behind them.
ghost use Rattle.std.specs.Prelude.{Some, true};
ghost use Rattle.serde_json.specs.Written.{compact_text, members_text};
ghost use Rattle.row_text.specs.Row.{bytes_on, created_on, directory_on, kind_on, parts_on, path_on};
ghost use Rattle.row_text.specs.Row.{row_data, row_view, sha256_on, size_on};

use crate::json_parts::PartsList;
use crate::json_text::{JsonText, LowerString, NumberOrNull, TextOrNull, UpperString};
use crate::places::Placed;
use crate::row::{Digested, Row};
use crate::wide::{wide_byte, wide_word};
use std::fmt;

// The members from `size` on.
#[derive(Clone, Copy)]
struct SizeOn<'a>(&'a Row<'a>);

impl fmt::Display for SizeOn<'_> {
    ghost output = { λ r. Some (members_text true (size_on (row_view r.0.now))) };

    #[tactic(auto, unfolding(json::specs::Print::escape_byte))]
    fn fmt<W: fmt::Write>(&self, f: &mut fmt::Formatter<W>) -> fmt::Result {
        let size = self.0.size;
        let stored = UpperString(self.0.stored);
        let word = JsonText(self.0.type_word);
        write!(f, ",\"size\":{size},\"stored\":{stored},\"type\":{word}}}")
    }
}

// The members from `sha256` on.
#[derive(Clone, Copy)]
struct Sha256On<'a>(&'a Row<'a>);

impl fmt::Display for Sha256On<'_> {
    ghost output = { λ r. Some (members_text true (sha256_on (row_view r.0.now))) };

    #[tactic(auto, unfolding(json::specs::Print::escape_byte))]
    fn fmt<W: fmt::Write>(&self, f: &mut fmt::Formatter<W>) -> fmt::Result {
        let size_on = SizeOn(self.0);
        match self.0.digest {
            Digested::Untold => write!(f, "{size_on}"),
            Digested::Missing => write!(f, ",\"sha256\":null{size_on}"),
            Digested::Of(digest) => {
                let sha256 = LowerString(&digest.sha256);
                write!(f, ",\"sha256\":{sha256}{size_on}")
            }
        }
    }
}

// The members from `path` on.
#[derive(Clone, Copy)]
struct PathOn<'a>(&'a Row<'a>);

impl fmt::Display for PathOn<'_> {
    ghost output = { λ r. Some (members_text true (path_on (row_view r.0.now))) };

    #[tactic(auto, unfolding(json::specs::Print::escape_byte))]
    fn fmt<W: fmt::Write>(&self, f: &mut fmt::Formatter<W>) -> fmt::Result {
        let path = JsonText(self.0.path);
        let sha256_on = Sha256On(self.0);
        write!(f, ",\"path\":{path}{sha256_on}")
    }
}

// The members from `parts` on.
#[derive(Clone, Copy)]
struct PartsOn<'a>(&'a Row<'a>);

impl fmt::Display for PartsOn<'_> {
    ghost output = { λ r. Some (members_text true (parts_on (row_view r.0.now))) };

    #[tactic(auto, unfolding(json::specs::Print::escape_byte))]
    fn fmt<W: fmt::Write>(&self, f: &mut fmt::Formatter<W>) -> fmt::Result {
        let path_on = PathOn(self.0);
        match self.0.places {
            Placed::Untold => write!(f, "{path_on}"),
            Placed::Missing => write!(f, ",\"parts\":null{path_on}"),
            Placed::Of { form, parts } => {
                let parts = PartsList { form, parts };
                write!(f, ",\"parts\":{parts}{path_on}")
            }
        }
    }
}

// The members from `kind` on.
#[derive(Clone, Copy)]
struct KindOn<'a>(&'a Row<'a>);

impl fmt::Display for KindOn<'_> {
    ghost output = { λ r. Some (members_text true (kind_on (row_view r.0.now))) };

    #[tactic(auto, unfolding(json::specs::Print::escape_byte))]
    fn fmt<W: fmt::Write>(&self, f: &mut fmt::Formatter<W>) -> fmt::Result {
        let kind = self.0.kind;
        let locked = self.0.locked;
        let modified = TextOrNull(&self.0.modified);
        let parts_on = PartsOn(self.0);
        write!(
            f,
            ",\"kind\":{kind},\"locked\":{locked},\"modified\":{modified}{parts_on}"
        )
    }
}

// The members from `directory` on.
#[derive(Clone, Copy)]
struct DirectoryOn<'a>(&'a Row<'a>);

impl fmt::Display for DirectoryOn<'_> {
    ghost output = { λ r. Some (members_text true (directory_on (row_view r.0.now))) };

    #[tactic(auto, unfolding(json::specs::Print::escape_byte))]
    fn fmt<W: fmt::Write>(&self, f: &mut fmt::Formatter<W>) -> fmt::Result {
        let directory = self.0.directory;
        let eof = NumberOrNull(self.0.eof);
        let kind_on = KindOn(self.0);
        write!(f, ",\"directory\":{directory},\"eof\":{eof}{kind_on}")
    }
}

// The members from `created` on.
#[derive(Clone, Copy)]
struct CreatedOn<'a>(&'a Row<'a>);

impl fmt::Display for CreatedOn<'_> {
    ghost output = { λ r. Some (members_text true (created_on (row_view r.0.now))) };

    #[tactic(auto, unfolding(json::specs::Print::escape_byte))]
    fn fmt<W: fmt::Write>(&self, f: &mut fmt::Formatter<W>) -> fmt::Result {
        let created = TextOrNull(&self.0.created);
        let directory_on = DirectoryOn(self.0);
        write!(f, ",\"created\":{created}{directory_on}")
    }
}

// The members from `bytes` on.
#[derive(Clone, Copy)]
struct BytesOn<'a>(&'a Row<'a>);

impl fmt::Display for BytesOn<'_> {
    ghost output = { λ r. Some (members_text true (bytes_on (row_view r.0.now))) };

    #[tactic(auto, unfolding(json::specs::Print::escape_byte))]
    fn fmt<W: fmt::Write>(&self, f: &mut fmt::Formatter<W>) -> fmt::Result {
        let created_on = CreatedOn(self.0);
        match self.0.digest {
            Digested::Untold => write!(f, "{created_on}"),
            Digested::Missing => write!(f, ",\"bytes\":null{created_on}"),
            Digested::Of(digest) => {
                let count = digest.count;
                write!(f, ",\"bytes\":{count}{created_on}")
            }
        }
    }
}

/// The line of an entry in JSON, without a line end.
#[derive(Clone, Copy)]
pub struct JsonRow<'a>(pub Row<'a>);

impl fmt::Display for JsonRow<'_> {
    ghost output = { λ r. Some (compact_text (row_data (row_view r.0))) };

    #[tactic(auto, unfolding(json::specs::Print::escape_byte))]
    fn fmt<W: fmt::Write>(&self, f: &mut fmt::Formatter<W>) -> fmt::Result {
        let access = NumberOrNull(wide_byte(self.0.access));
        let aux = NumberOrNull(wide_word(self.0.aux));
        let bytes_on = BytesOn(&self.0);
        write!(f, "{{\"access\":{access},\"aux\":{aux}{bytes_on}")
    }
}
