// What is told of the files that were put into a folder.
ghost use Rattle.std.specs.Prelude.{◌≡◌, ◌<◌, ◌-◌, ◌^◌, ◌++◌, [], ◌∷◌, IfOk, List, OnOk, Some, length, string_bytes};
ghost use Rattle.file_listings.specs.DosText.{line};
ghost use Rattle.volume_extract.specs.ExtractText.{AreAtMost, item_text, outcome_text, totals_text, totals_with};
ghost use Rattle.volume_extract.specs.Items.{Item, item_at};
ghost use Rattle.volume_extract.specs.Kept.{TellsItems};

use crate::hosts::{host_below, name_of};
use crate::kept::{Kept, Outcome};
use crate::opened::Opened;
use crate::totals::Totals;
use crate::tree_format::TreeFormat;
use std::alloc::{AllocError, Global};
use std::fmt;
use vol_format::Format;

/// What is told of the files of a volume that were put into a folder: a line for each entry, two where its readable
/// form stands beside it, and a last one.
#[derive(Drop)]
pub struct Extraction<'a, F: TreeFormat> {
    pub(crate) opened: Opened<'a, F>,
    pub(crate) kept: Vec<Kept>,
    pub(crate) totals: Totals,
}

// What is told of an entry with a path on the host.
#[derive(Clone, Copy)]
struct OutcomeText<'a> {
    outcome: Outcome,
    host: &'a str,
}

impl fmt::Display for OutcomeText<'_> {
    ghost output = { λ t. Some (outcome_text t.outcome t.host.now) };

    fn fmt<W: fmt::Write>(&self, f: &mut fmt::Formatter<W>) -> fmt::Result {
        let host = self.host;
        match self.outcome {
            Outcome::Folder => write!(f, "FOLDER {host}/"),
            Outcome::File(bytes) => write!(f, "FILE {bytes} {host}"),
            Outcome::Both(bytes, text) => {
                write!(f, "FILE {bytes} {host}\nTEXT {text} {host}.utf8.txt")
            }
            Outcome::Text(bytes) => write!(f, "TEXT {bytes} {host}"),
            Outcome::Unreadable => write!(f, "UNREADABLE {host}"),
        }
    }
}

impl<F: TreeFormat> Extraction<'_, F> {
    /// Keeps one more entry, where all that was made has so many bytes then.
    ///
    /// # Errors
    /// Want of memory alone.
    pub(crate) fn keep(&mut self, kept: Kept, bytes: u64) -> Result<(), AllocError>
        requires { AreAtMost self.old.totals (2 ^ 64 - 2) }
        ensures opened { self.new.opened ≡ self.old.opened }
        ensures kept { OnOk result (self.new.kept.items ≡ self.old.kept.items ++ kept ∷ []) }
        ensures totals { OnOk result (self.new.totals ≡ totals_with self.old.totals kept.outcome bytes) }
    {
        self.totals = self.totals.with(kept.outcome, bytes);
        self.kept.push(kept)?;
        Ok(())
    }

    /// How many entries it tells of.
    pub fn entries(&self) -> u32
        ensures { (items : List Item) → TellsItems self.now.opened.form (F.own self.now.opened.format.now)
            (F.directory self.now.opened.format.now self.now.opened.volume) self.now.opened.naming items
            self.now.kept.items self.now.totals → result ≡ length items }
    {
        self.opened.format.entries(&self.opened.volume)
    }

    /// The line of an entry, or both of its lines.
    ///
    /// # Errors
    /// Want of memory alone.
    pub fn line(&self, alloc: Global, entry: u32) -> Result<String, AllocError>
        requires told { (items : List Item) × TellsItems self.now.opened.form (F.own self.now.opened.format.now)
            (F.directory self.now.opened.format.now self.now.opened.volume) self.now.opened.naming items
            self.now.kept.items self.now.totals }
        requires entry { entry < length self.now.kept.items }
        ensures { (items : List Item) → TellsItems self.now.opened.form (F.own self.now.opened.format.now)
            (F.directory self.now.opened.format.now self.now.opened.volume) self.now.opened.naming items
            self.now.kept.items self.now.totals
            → IfOk result (λ text. string_bytes text ≡ line (item_text (item_at items entry))) }
    {
        let Kept { head, outcome } = self.kept[entry as usize];
        let name = name_of(alloc, &self.opened, entry, head)?;
        let host = host_below(alloc, &self.opened, &self.kept, head.above, name)?;
        let told = OutcomeText {
            outcome,
            host: host.as_str(),
        };
        format!(in alloc; "{told}\n")
    }

    /// The last line, how many entries there are of each outcome.
    ///
    /// # Errors
    /// Want of memory alone.
    pub fn last_line(&self, alloc: Global) -> Result<String, AllocError>
        ensures { IfOk result (λ text. string_bytes text ≡ line (totals_text self.now.totals)) }
    {
        let totals = self.totals;
        format!(in alloc; "{totals}\n")
    }

    /// How many entries there are of each outcome.
    pub fn totals(&self) -> Totals
        ensures { result ≡ self.now.totals }
    {
        self.totals
    }
}
