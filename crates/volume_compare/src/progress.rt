// How far two volumes are compared.
ghost use Rattle.std.specs.Prelude.{◌≡◌, ◌<◌, ◌+◌, ◌-◌, ◌^◌, [], ℕ, OnOk, Some};
ghost use Rattle.volume_compare.specs.CompareText.{AreAtMost};
ghost use Rattle.volume_compare.specs.Progress.{IsProgress, IsSpent, IsTelling};
ghost use Rattle.vol_layout.specs.declared.form.PlaceForm.{PlaceForm};

use crate::error::CompareError;
use crate::finding::{Found, Side};
use crate::report::Report;
use std::alloc::Global;
use vol_layout::PlaceForm;

/// How many bytes of the texts of both volumes may be read yet.
#[derive(Clone, Copy)]
pub struct Left {
    pub first: u64,
    pub second: u64,
}

/// What was told of two volumes, and how much of them may be read yet.
#[derive(Drop)]
pub struct Progress {
    /// Whether files that are the same are told of too.
    pub all: bool,
    pub report: Report,
    pub left: Left,
}

impl Progress {
    /// None are told of, and so many bytes of each volume may be read.
    pub fn new(alloc: Global, all: bool, most: u64) -> Progress
        ensures progress { (form : PlaceForm) → IsProgress form most [] result }
        ensures few { AreAtMost result.report.totals 0 }
        ensures all { result.all ≡ all }
    {
        Progress {
            all,
            report: Report::new(alloc),
            left: Left {
                first: most,
                second: most,
            },
        }
    }

    // Takes the bytes that were read of a file off those that may be.
    fn spend(&mut self, found: Found) -> Result<(), CompareError>
        ensures report { self.new.report ≡ self.old.report }
        ensures all { self.new.all ≡ self.old.all }
        ensures left { IsSpent self.old.left self.new.left found result }
    {
        let Some(first) = self.left.first.checked_sub(found.first_bytes) else {
            return Err(CompareError::TooLarge(Side::First));
        };
        self.left.first = first;
        let Some(second) = self.left.second.checked_sub(found.second_bytes) else {
            return Err(CompareError::TooLarge(Side::Second));
        };
        self.left.second = second;
        Ok(())
    }

    /// Tells what is found of the file of a path.
    ///
    /// # Errors
    /// `TooLarge` where it has more bytes than may be read yet, of the first volume or of the second; `Memory`.
    pub fn tell(&mut self, form: PlaceForm, path: &[u8], found: Found) -> Result<(), CompareError>
        requires { AreAtMost self.old.report.totals (2 ^ 64 - 2) }
        ensures told { IsTelling form self.old self.new (Some (record { path = path.now; found = found })) result }
        ensures all { self.new.all ≡ self.old.all }
        ensures few { (most : ℕ) → AreAtMost self.old.report.totals most
            → OnOk result (AreAtMost self.new.report.totals (most + 1)) }
    {
        self.spend(found)?;
        self.report.tell(self.all, form, path, found.finding)?;
        Ok(())
    }
}
