// The other lines of a survey in JSON: of the images that are the same as another, and the last one.
ghost use Rattle.std.specs.Prelude.{◌≡◌, IfOk, Some, string_bytes, true};
ghost use Rattle.file_listings.specs.DosText.{line};
ghost use Rattle.image_survey.specs.JsonLines.{passed_on, same_data, totals_data};
ghost use Rattle.serde_json.specs.Written.{compact_text, members_text};

use crate::counts::{Counts, Totals};
use crate::json_string::JsonString;
use crate::likeness::Likeness;
use std::alloc::{AllocError, Global};
use std::fmt;

// The line of an image that is the same as another, without its end.
#[derive(Clone, Copy)]
struct JsonSame<'a> {
    likeness: Likeness,
    group: usize,
    path: &'a JsonString,
}

impl fmt::Display for JsonSame<'_> {
    ghost output = { λ s. Some (compact_text (same_data s.likeness s.group s.path.now)) };

    #[tactic(auto, unfolding(json::specs::Print::escape_byte))]
    fn fmt<W: fmt::Write>(&self, f: &mut fmt::Formatter<W>) -> fmt::Result {
        let JsonSame { group, path, .. } = self;
        match self.likeness {
            Likeness::Files => write!(f, "{{\"path\":{path},\"same\":{group}}}"),
            Likeness::Disk => write!(f, "{{\"path\":{path},\"twin\":{group}}}"),
        }
    }
}

/// The line of an image that is the same as another, with its end.
///
/// # Errors
/// Want of memory alone.
pub(crate) fn same_json(
    alloc: Global,
    likeness: Likeness,
    group: usize,
    path: &str,
) -> Result<String, AllocError>
    ensures { IfOk result (λ text. string_bytes text ≡ line (compact_text (same_data likeness group path.now))) }
{
    let path = JsonString::of(alloc, path)?;
    let same = JsonSame {
        likeness,
        group,
        path: &path,
    };
    format!(in alloc; "{same}\n")
}

// The members of the last line from `passed` on, with the closing brace behind them.
#[derive(Clone, Copy)]
struct PassedOn(Totals);

impl fmt::Display for PassedOn {
    ghost output = { λ t. Some (members_text true (passed_on t.0)) };

    #[tactic(auto, unfolding(json::specs::Print::escape_byte))]
    fn fmt<W: fmt::Write>(&self, f: &mut fmt::Formatter<W>) -> fmt::Result {
        let Totals {
            same,
            twins,
            passed,
            ..
        } = self.0;
        let unread = self.0.counts.unread;
        write!(
            f,
            ",\"passed\":{passed},\"same\":{same},\"twin\":{twins},\"unread\":{unread}}}"
        )
    }
}

/// The last line, without its end.
#[derive(Clone, Copy)]
pub(crate) struct JsonTotals(pub(crate) Totals);

impl fmt::Display for JsonTotals {
    ghost output = { λ t. Some (compact_text (totals_data t.0)) };

    #[tactic(auto, unfolding(json::specs::Print::escape_byte))]
    fn fmt<W: fmt::Write>(&self, f: &mut fmt::Formatter<W>) -> fmt::Result {
        let Counts {
            ambiguous,
            best,
            none,
            other,
            ..
        } = self.0.counts;
        let files = self.0.counts.total();
        let passed_on = PassedOn(self.0);
        write!(
            f,
            "{{\"ambiguous\":{ambiguous},\"best\":{best},\"files\":{files},\"none\":{none},\"other\":{other}{passed_on}"
        )
    }
}
