// How often each thing is found.
ghost use Rattle.std.specs.Prelude.{◌≡◌, [], IfSome};
ghost use Rattle.image_survey.specs.Lines.{total_of};
ghost use Rattle.image_survey.specs.Survey.{status_of};
ghost use Rattle.image_survey.specs.Told.{counts_by, counts_of, counts_with};

use crate::surveyed::{ImageVerdict, Surveyed};

/// How many files there are of each kind.
#[derive(Clone, Copy)]
pub struct Counts {
    pub best: u64,
    pub ambiguous: u64,
    /// Images without a volume.
    pub none: u64,
    pub other: u64,
    pub unread: u64,
}

impl Counts {
    /// None.
    pub(crate) fn none() -> Counts
        ensures { result ≡ counts_of [] }
    {
        Counts {
            best: 0,
            ambiguous: 0,
            none: 0,
            other: 0,
            unread: 0,
        }
    }

    // Those with one more image; `None` where a count would pass the greatest number.
    fn with_image(self, verdict: &ImageVerdict) -> Option<Counts>
        ensures { IfSome result (λ more. more ≡ counts_by self verdict.now) }
    {
        let mut counts = self;
        match verdict {
            ImageVerdict::Best(_) => counts.best = counts.best.checked_add(1)?,
            ImageVerdict::Ambiguous => counts.ambiguous = counts.ambiguous.checked_add(1)?,
            ImageVerdict::NoVolume => counts.none = counts.none.checked_add(1)?,
        }
        Some(counts)
    }

    /// Those with one more file; `None` where a count would pass the greatest number.
    pub(crate) fn with(self, found: &Surveyed) -> Option<Counts>
        ensures { IfSome result (λ more. more ≡ counts_with self found.now) }
    {
        let mut counts = self;
        match found {
            Surveyed::Image(image) => counts = self.with_image(&image.verdict)?,
            Surveyed::Other => counts.other = counts.other.checked_add(1)?,
            Surveyed::Unread => counts.unread = counts.unread.checked_add(1)?,
        }
        Some(counts)
    }

    /// How many files there are.
    pub(crate) fn total(self) -> u128
        ensures { result ≡ total_of self }
    {
        u128::from(self.best)
            + u128::from(self.ambiguous)
            + u128::from(self.none)
            + u128::from(self.other)
            + u128::from(self.unread)
    }

    /// The status of a survey in which these were found.
    pub(crate) fn status(self) -> u8
        ensures { result ≡ status_of self }
    {
        if self.ambiguous == 0 && self.none == 0 && self.unread == 0 {
            0
        } else {
            1
        }
    }
}

/// What the last line tells.
#[derive(Clone, Copy)]
pub struct Totals {
    pub counts: Counts,
    /// How many lines tell that an image has the files of another.
    pub same: usize,
    /// How many lines tell that it has the disk of another.
    pub twins: usize,
    /// How many things that are no files were passed over.
    pub passed: u64,
}
