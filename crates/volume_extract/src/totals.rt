// How many entries there are of each outcome.
ghost use Rattle.std.specs.Prelude.{◌≡◌, ◌<◌, ◌+◌, ◌^◌, ◌-◌, [], Some};
ghost use Rattle.volume_extract.specs.ExtractText.{AreAtMost, totals_of, totals_text, totals_with};

use crate::kept::Outcome;
use std::fmt;

/// What was made of the entries of a volume.
#[derive(Clone, Copy)]
pub struct Totals {
    pub files: u64,
    pub folders: u64,
    /// The readable forms of files.
    pub texts: u64,
    /// The files that can't be read.
    pub unreadable: u64,
    /// The bytes of all files that were made, readable forms too.
    pub bytes: u64,
}

impl Totals {
    /// Those of no entries.
    pub(crate) fn none() -> Totals
        ensures { result ≡ totals_of [] }
    {
        Totals {
            files: 0,
            folders: 0,
            texts: 0,
            unreadable: 0,
            bytes: 0,
        }
    }

    /// Those with one more, where all that was made has so many bytes then.
    pub(crate) fn with(self, outcome: Outcome, bytes: u64) -> Totals
        requires { AreAtMost self (2 ^ 64 - 2) }
        ensures { result ≡ totals_with self outcome bytes }
    {
        let mut totals = Totals { bytes, ..self };
        match outcome {
            Outcome::Folder => totals.folders += 1,
            Outcome::File(_) => totals.files += 1,
            Outcome::Both(_, _) => {
                totals.files += 1;
                totals.texts += 1;
            }
            Outcome::Text(_) => totals.texts += 1,
            Outcome::Unreadable => totals.unreadable += 1,
        }
        totals
    }
}

impl fmt::Display for Totals {
    ghost output = { λ t. Some (totals_text t) };

    fn fmt<W: fmt::Write>(&self, f: &mut fmt::Formatter<W>) -> fmt::Result {
        let Totals {
            files,
            folders,
            texts,
            unreadable,
            bytes,
        } = self;
        write!(
            f,
            "EXTRACTED files {files} folders {folders} texts {texts} unreadable {unreadable} bytes {bytes}"
        )
    }
}
