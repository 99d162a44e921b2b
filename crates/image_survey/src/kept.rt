// The images that may be the same as another.
ghost use Rattle.std.specs.Prelude.{
  ◌≡◌,
  ◌++◌,
  ◌∷◌,
  ◌||◌,
  [],
  IfOk,
  List,
  OnErr,
  OnOk,
};
ghost use Rattle.std.specs.HashSet.{contains_by};
ghost use Rattle.image_survey.specs.Told.{
  AreKept,
  Candidate,
  candidate_by,
  candidate_of,
  content_by,
  is_file,
  is_of_file,
  key_by,
};

use crate::content::Content;
use crate::file_id::FileId;
use crate::likeness::Likeness;
use crate::surveyed::BestReading;
use std::alloc::{AllocError, Global};
use std::collections::HashSet;

/// An image that may be the same as another, with its path.
#[derive(Drop)]
pub struct Kept {
    /// The content of its volume, where that has files and each can be read.
    pub content: Option<[u8; 32]>,
    /// The digest of its disk, where no sector and no block is missing.
    pub disk: Option<[u8; 32]>,
    /// The file that it stands in, where that is known.
    pub file: Option<FileId>,
    pub path: String,
}

// The content of an image that may be the same as another.
fn content_by(best: &BestReading) -> Option<[u8; 32]>
    ensures { result ≡ content_by best.now }
{
    match best.facts.content {
        Content::Of {
            sha256,
            whole: true,
        } if best.facts.files > 0 => Some(sha256),
        Content::Of { .. } | Content::TooLarge => None,
    }
}

impl Kept {
    // The image of a file with a best reading.
    fn of(
        alloc: Global,
        path: &str,
        file: Option<FileId>,
        best: &BestReading,
    ) -> Result<Kept, AllocError>
        ensures { IfOk result (λ image. candidate_of image ≡ candidate_by path.now file best.now) }
    {
        let path = String::from_str(alloc, path)?;
        Ok(Kept {
            content: content_by(best),
            disk: best.disk,
            file,
            path,
        })
    }

    /// What an image and those that are the same as it have alike.
    pub(crate) fn key(&self, likeness: Likeness) -> Option<[u8; 32]>
        ensures { result ≡ key_by likeness (candidate_of self.now) }
    {
        match likeness {
            Likeness::Files => self.content,
            Likeness::Disk => self.disk,
        }
    }
}

/// The images that may be the same as another, of each file the first that was found.
#[derive(Drop)]
pub struct Images {
    pub kept: Vec<Kept>,
    pub files: HashSet<FileId>,
}

// Notes a file, and answers whether it is known and was noted before.
fn is_again(files: &mut HashSet<FileId>, file: Option<FileId>) -> Result<bool, AllocError>
    ensures again { IfOk result (λ again. again ≡ contains_by (is_of_file file) files.old) }
    ensures noted { OnOk result ((other : FileId) → contains_by (is_file other) files.new
        ≡ (contains_by (is_file other) files.old || is_of_file file other)) }
    ensures same { OnErr result ((other : FileId) → contains_by (is_file other) files.new
        ≡ contains_by (is_file other) files.old) }
{
    match file {
        Some(file) => Ok(!files.insert(file)?),
        None => Ok(false),
    }
}

impl Images {
    /// None.
    pub(crate) fn none(alloc: Global) -> Images
        ensures { AreKept [] result }
    {
        Images {
            kept: Vec::new(alloc),
            files: HashSet::new(alloc),
        }
    }

    /// Adds the image of a file with a best reading, unless it is a file whose image was added before.
    ///
    /// # Errors
    /// Want of memory; then none is added.
    pub(crate) fn add(
        &mut self,
        alloc: Global,
        path: &str,
        file: Option<FileId>,
        best: &BestReading,
    ) -> Result<(), AllocError>
        ensures added { OnOk result ((found : List Candidate) → AreKept found self.old
            → AreKept (found ++ candidate_by path.now file best.now ∷ []) self.new) }
        ensures same { OnErr result ((found : List Candidate) → AreKept found self.old → AreKept found self.new) }
    {
        let image = Kept::of(alloc, path, file, best)?;
        self.kept.reserve(1)?;
        if !is_again(&mut self.files, file)? {
            self.kept.push(image)?;
        }
        Ok(())
    }
}
