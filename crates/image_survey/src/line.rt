// The lines of a survey, in words.
ghost use Rattle.std.specs.Prelude.{◌≡◌, Some, slice_index};
ghost use Rattle.image_survey.specs.Lines.{
  best_text,
  digest_in,
  file_text,
  found_text,
  image_text,
  images_text,
  number_text,
  numbers_text,
  others_text,
  reading_text,
  same_counts_text,
  same_text,
  totals_text,
  volume_text,
};

use crate::content::Content;
use crate::counts::{Counts, Totals};
use crate::facts::VolumeFacts;
use crate::file_line::DigestText;
use crate::likeness::Likeness;
use crate::surveyed::{BestReading, ImageVerdict, Surveyed};
use image_readings::{file_system_word, order_word};
use row_text::{LowerHex, ShownBytes};
use shop_jobs::FileSystem;
use std::fmt;

// The first byte, or 0 where there is none.
fn first_byte(bytes: &[u8]) -> u8
    ensures { result ≡ slice_index bytes.now 0 }
{
    match bytes {
        [first, ..] => *first,
        [] => 0,
    }
}

/// The name of a volume as it is shown: of DOS 3.3 its number.
#[derive(Clone, Copy)]
pub(crate) struct VolumeText<'a> {
    pub(crate) file_system: FileSystem,
    pub(crate) name: &'a [u8],
}

impl fmt::Display for VolumeText<'_> {
    ghost output = { λ v. Some (volume_text v.file_system v.name.now) };

    fn fmt<W: fmt::Write>(&self, f: &mut fmt::Formatter<W>) -> fmt::Result {
        match self.file_system {
            FileSystem::Dos => {
                let number = first_byte(self.name);
                write!(f, "{number}")
            }
            FileSystem::Prodos => {
                let name = ShownBytes(self.name);
                write!(f, "{name}")
            }
        }
    }
}

// A number, or a hyphen.
#[derive(Clone, Copy)]
struct NumberText(Option<usize>);

impl fmt::Display for NumberText {
    ghost output = { λ n. Some (number_text n.0) };

    fn fmt<W: fmt::Write>(&self, f: &mut fmt::Formatter<W>) -> fmt::Result {
        match self.0 {
            None => write!(f, "-"),
            Some(number) => write!(f, "{number}"),
        }
    }
}

/// The digest of a content, where it is told.
pub(crate) fn digest_in(content: Content) -> Option<[u8; 32]>
    ensures { result ≡ digest_in content }
{
    match content {
        Content::Of { sha256, .. } => Some(sha256),
        Content::TooLarge => None,
    }
}

// How many files, lost places and free places a volume has.
#[derive(Clone, Copy)]
struct NumbersText<'a>(&'a VolumeFacts);

impl fmt::Display for NumbersText<'_> {
    ghost output = { λ n. Some (numbers_text n.0.now) };

    fn fmt<W: fmt::Write>(&self, f: &mut fmt::Formatter<W>) -> fmt::Result {
        let files = self.0.files;
        let lost = NumberText(self.0.lost);
        let free = self.0.free;
        write!(f, "files {files} lost {lost} free {free}")
    }
}

// The best way to read an image, and the numbers of its volume.
#[derive(Clone, Copy)]
struct ReadingText<'a>(&'a BestReading);

impl fmt::Display for ReadingText<'_> {
    ghost output = { λ r. Some (reading_text r.0.now) };

    fn fmt<W: fmt::Write>(&self, f: &mut fmt::Formatter<W>) -> fmt::Result {
        let file_system = file_system_word(self.0.file_system);
        let order = order_word(self.0.order);
        let volume = VolumeText {
            file_system: self.0.file_system,
            name: self.0.facts.name.as_bytes(),
        };
        let numbers = NumbersText(&self.0.facts);
        write!(f, "{file_system} {order} {volume} {numbers}")
    }
}

// The best way to read an image, and the digests of the file and of the content.
#[derive(Clone, Copy)]
struct BestText<'a> {
    best: &'a BestReading,
    sha256: &'a [u8; 32],
}

impl fmt::Display for BestText<'_> {
    ghost output = { λ b. Some (best_text b.best.now b.sha256.now) };

    fn fmt<W: fmt::Write>(&self, f: &mut fmt::Formatter<W>) -> fmt::Result {
        let reading = ReadingText(self.best);
        let sha256 = self.sha256;
        let image = LowerHex(sha256);
        let digest = digest_in(self.best.facts.content);
        let content = DigestText(&digest);
        write!(f, "BEST {reading} image {image} content {content}")
    }
}

// What is found of an image, and the digest of its file.
#[derive(Clone, Copy)]
struct ImageText<'a> {
    verdict: &'a ImageVerdict,
    sha256: &'a [u8; 32],
}

impl fmt::Display for ImageText<'_> {
    ghost output = { λ i. Some (image_text i.verdict.now i.sha256.now) };

    fn fmt<W: fmt::Write>(&self, f: &mut fmt::Formatter<W>) -> fmt::Result {
        let sha256 = self.sha256;
        let digits = LowerHex(sha256);
        match self.verdict {
            ImageVerdict::Best(best) => {
                let text = BestText { best, sha256 };
                write!(f, "{text}")
            }
            ImageVerdict::Ambiguous => write!(f, "AMBIGUOUS image {digits}"),
            ImageVerdict::NoVolume => write!(f, "NONE image {digits}"),
        }
    }
}

// What is found of a file.
#[derive(Clone, Copy)]
struct FoundText<'a>(&'a Surveyed);

impl fmt::Display for FoundText<'_> {
    ghost output = { λ t. Some (found_text t.0.now) };

    fn fmt<W: fmt::Write>(&self, f: &mut fmt::Formatter<W>) -> fmt::Result {
        match self.0 {
            Surveyed::Image(image) => {
                let text = ImageText {
                    verdict: &image.verdict,
                    sha256: &image.sha256,
                };
                write!(f, "{text}")
            }
            Surveyed::Other => write!(f, "OTHER"),
            Surveyed::Unread => write!(f, "UNREAD"),
        }
    }
}

/// The line of a file with a path as it is shown, without its end.
#[derive(Clone, Copy)]
pub(crate) struct FileText<'a> {
    pub(crate) found: &'a Surveyed,
    pub(crate) path: &'a str,
}

impl fmt::Display for FileText<'_> {
    ghost output = { λ t. Some (file_text t.found.now t.path.now) };

    fn fmt<W: fmt::Write>(&self, f: &mut fmt::Formatter<W>) -> fmt::Result {
        let found = FoundText(self.found);
        let path = self.path;
        write!(f, "{found} {path}")
    }
}

/// The line of an image that is the same as another, with its path as it is shown, without its end.
#[derive(Clone, Copy)]
pub(crate) struct SameText<'a> {
    pub(crate) likeness: Likeness,
    pub(crate) group: usize,
    pub(crate) path: &'a str,
}

impl fmt::Display for SameText<'_> {
    ghost output = { λ t. Some (same_text t.likeness t.group t.path.now) };

    fn fmt<W: fmt::Write>(&self, f: &mut fmt::Formatter<W>) -> fmt::Result {
        let SameText { group, path, .. } = self;
        match self.likeness {
            Likeness::Files => write!(f, "SAME {group} {path}"),
            Likeness::Disk => write!(f, "TWIN {group} {path}"),
        }
    }
}

// How many images there are of each kind.
#[derive(Clone, Copy)]
struct ImagesText(Counts);

impl fmt::Display for ImagesText {
    ghost output = { λ t. Some (images_text t.0) };

    fn fmt<W: fmt::Write>(&self, f: &mut fmt::Formatter<W>) -> fmt::Result {
        let Counts {
            best,
            ambiguous,
            none,
            ..
        } = self.0;
        write!(f, "best {best} ambiguous {ambiguous} none {none}")
    }
}

// How many files are no images or can't be read.
#[derive(Clone, Copy)]
struct OthersText(Counts);

impl fmt::Display for OthersText {
    ghost output = { λ t. Some (others_text t.0) };

    fn fmt<W: fmt::Write>(&self, f: &mut fmt::Formatter<W>) -> fmt::Result {
        let Counts { other, unread, .. } = self.0;
        write!(f, "other {other} unread {unread}")
    }
}

// How many lines tell that an image is the same as another, and how much was passed over.
#[derive(Clone, Copy)]
struct SameCountsText(Totals);

impl fmt::Display for SameCountsText {
    ghost output = { λ t. Some (same_counts_text t.0) };

    fn fmt<W: fmt::Write>(&self, f: &mut fmt::Formatter<W>) -> fmt::Result {
        let Totals {
            same,
            twins,
            passed,
            ..
        } = self.0;
        write!(f, "same {same} twin {twins} passed {passed}")
    }
}

/// The last line, without its end.
#[derive(Clone, Copy)]
pub(crate) struct TotalsText(pub(crate) Totals);

impl fmt::Display for TotalsText {
    ghost output = { λ t. Some (totals_text t.0) };

    fn fmt<W: fmt::Write>(&self, f: &mut fmt::Formatter<W>) -> fmt::Result {
        let counts = self.0.counts;
        let files = counts.total();
        let images = ImagesText(counts);
        let others = OthersText(counts);
        let same = SameCountsText(self.0);
        write!(f, "SURVEYED files {files} {images} {others} {same}")
    }
}
