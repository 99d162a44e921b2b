// The text of a comparison, a file at a time.
ghost use Rattle.std.specs.Prelude.{
  ◌≡◌,
  ◌<◌,
  ◌^◌,
  ◌-◌,
  ◌++◌,
  ◌∷◌,
  [],
  IfOk,
  OnOk,
  List,
  Option,
  Some,
  flat_map,
  string_bytes,
};
ghost use Rattle.file_listings.specs.DosText.{line};
ghost use Rattle.volume_compare.specs.CompareText.{
  AreAtMost,
  finding_text,
  finding_words,
  is_shown,
  shown_line,
  side_word,
  totals_of,
  totals_text,
  totals_with,
};

use crate::finding::{Finding, Side};
use crate::totals::Totals;
use file_listings::ShownPath;
use std::alloc::{AllocError, Global};
use std::fmt;
use vol_layout::PlaceForm;

/// What is told of two volumes, and whether their files are equal.
#[derive(Drop)]
pub struct Comparison {
    pub text: String,
    pub equal: bool,
}

impl fmt::Display for Side {
    ghost output = { λ s. Some (side_word s) };

    fn fmt<W: fmt::Write>(&self, f: &mut fmt::Formatter<W>) -> fmt::Result {
        match self {
            Side::First => write!(f, "1"),
            Side::Second => write!(f, "2"),
        }
    }
}

impl fmt::Display for Finding {
    ghost output = { λ f. Some (finding_words f) };

    fn fmt<W: fmt::Write>(&self, f: &mut fmt::Formatter<W>) -> fmt::Result {
        match self {
            Finding::Unreadable(side) => write!(f, "UNREADABLE {side}"),
            Finding::Only(side) => write!(f, "ONLY {side}"),
            Finding::Body => write!(f, "BODY"),
            Finding::Entry => write!(f, "ENTRY"),
            Finding::Same => write!(f, "SAME"),
        }
    }
}

// What is found of a file of this path.
#[derive(Clone, Copy)]
struct FindingText<'a> {
    form: PlaceForm,
    finding: Finding,
    path: &'a [u8],
}

impl fmt::Display for FindingText<'_> {
    ghost output = { λ t. Some (finding_text t.form t.finding t.path.now) };

    fn fmt<W: fmt::Write>(&self, f: &mut fmt::Formatter<W>) -> fmt::Result {
        let finding = self.finding;
        let path = ShownPath {
            form: self.form,
            path: self.path,
        };
        write!(f, "{finding} {path}")
    }
}

// Whether a file of which this is found is told of.
fn is_shown(all: bool, finding: Finding) -> bool
    ensures { result ≡ is_shown all finding }
{
    all || finding != Finding::Same
}

/// What was told so far.
#[derive(Drop)]
pub struct Report {
    text: String,
    totals: Totals,
}

impl Report {
    /// Nothing.
    pub fn new(alloc: Global) -> Report
        ensures text { string_bytes result.text ≡ [] }
        ensures totals { result.totals ≡ totals_of [] }
    {
        Report {
            text: String::new(alloc),
            totals: Totals::none(),
        }
    }

    /// Tells what is found of the file of a path; where `all` are told of, also that it is the same.
    ///
    /// # Errors
    /// Want of memory alone.
    pub fn tell(
        &mut self,
        all: bool,
        form: PlaceForm,
        path: &[u8],
        finding: Finding,
    ) -> Result<(), AllocError>
        requires { AreAtMost self.old.totals (2 ^ 64 - 2) }
        ensures text { OnOk result (string_bytes self.new.text
            ≡ string_bytes self.old.text ++ shown_line all form finding path.now) }
        ensures totals { OnOk result (self.new.totals ≡ totals_with self.old.totals finding) }
    {
        self.totals.add(finding);
        if is_shown(all, finding) {
            let line = FindingText {
                form,
                finding,
                path,
            };
            writeln!(self.text, "{line}")?;
        }
        Ok(())
    }

    /// The whole of it, with the last line.
    ///
    /// # Errors
    /// Want of memory alone.
    pub fn finish(self) -> Result<Comparison, AllocError>
        ensures text { IfOk result (λ comparison. string_bytes comparison.text
            ≡ string_bytes self.text ++ line (totals_text self.totals)) }
        ensures equal { IfOk result (λ comparison. comparison.equal ≡ self.totals.equal) }
    {
        let Report { mut text, totals } = self;
        writeln!(text, "{totals}")?;
        Ok(Comparison {
            text,
            equal: totals.equal,
        })
    }
}
