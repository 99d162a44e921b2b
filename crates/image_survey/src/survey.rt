// A survey of files, one after the other.
ghost use Rattle.std.specs.Prelude.{
  ◌≡◌,
  ◌++◌,
  [],
  ◌∷◌,
  IfOk,
  IsTrue,
  List,
  OnErr,
  OnOk,
  Option,
  flat_map,
  map,
  string_bytes,
};
ghost use Rattle.std.specs.Io.KnownBytes.{Appends};
ghost use Rattle.shop_replies.specs.Reply.{AppendsFront};
ghost use Rattle.image_survey.specs.Same.{candidate_at};
ghost use Rattle.image_survey.specs.Survey.{
  IsEnded,
  IsSurveyOf,
  IsTelling,
  file_line as line_of_file,
  last_line as line_of_all,
  same_line as line_of_same,
  same_lines_text,
};
ghost use Rattle.image_survey.specs.Told.{Told, candidate_of};

use crate::counts::{Counts, Totals};
use crate::error::SurveyError;
use crate::file_id::FileId;
use crate::json_row::file_json;
use crate::json_totals::{JsonTotals, same_json};
use crate::kept::{Images, Kept};
use crate::likeness::Likeness;
use crate::line::{FileText, SameText, TotalsText};
use crate::same::{SameLine, same_lines};
use crate::surveyed::Surveyed;
use shop_jobs::SurveyForm;
use shop_replies::{write_whole, written};
use shown_text::escaped;
use std::alloc::{AllocError, Global};
use std::io::Write;

/// The status of a survey that could not be told to its end.
const FAILED: u8 = 4;

/// A survey of files: what was found so far, and the images that may be the same as another.
#[derive(Drop)]
pub struct Survey {
    form: SurveyForm,
    counts: Counts,
    images: Images,
}

// The line of a file.
fn file_line(
    alloc: Global,
    form: SurveyForm,
    path: &str,
    found: &Surveyed,
) -> Result<String, AllocError>
    ensures { (file : Option FileId) → IfOk result (λ text. string_bytes text
        ≡ line_of_file form (record { path = path.now; file = file; found = found.now })) }
{
    match form {
        SurveyForm::Lines => {
            let path = escaped(alloc, path)?;
            let told = FileText {
                found,
                path: path.as_str(),
            };
            format!(in alloc; "{told}\n")
        }
        SurveyForm::Json => file_json(alloc, found, path),
    }
}

// The path of an image by its number.
fn path_of(kept: &[Kept], image: usize) -> &str
    ensures { result.now ≡ (candidate_at (map candidate_of kept.now) image).path }
{
    match kept.get(image) {
        Some(one) => one.path.as_str(),
        None => "",
    }
}

// The line of an image that is the same as another.
fn same_line(
    alloc: Global,
    form: SurveyForm,
    likeness: Likeness,
    kept: &[Kept],
    same: SameLine,
) -> Result<String, AllocError>
    ensures { IfOk result (λ text. string_bytes text ≡ line_of_same form likeness (map candidate_of kept.now) same) }
{
    let path = path_of(kept, same.image);
    match form {
        SurveyForm::Lines => {
            let path = escaped(alloc, path)?;
            let told = SameText {
                likeness,
                group: same.group,
                path: path.as_str(),
            };
            format!(in alloc; "{told}\n")
        }
        SurveyForm::Json => same_json(alloc, likeness, same.group, path),
    }
}

// The last line.
fn last_line(alloc: Global, form: SurveyForm, totals: Totals) -> Result<String, AllocError>
    ensures { IfOk result (λ text. string_bytes text ≡ line_of_all form totals) }
{
    match form {
        SurveyForm::Lines => {
            let told = TotalsText(totals);
            format!(in alloc; "{told}\n")
        }
        SurveyForm::Json => {
            let told = JsonTotals(totals);
            format!(in alloc; "{told}\n")
        }
    }
}

// Writes the line of an image that is the same as another, or as much of it as the writer takes, and answers whether it
// took all.
fn write_same<T: Write>(
    alloc: Global,
    form: SurveyForm,
    likeness: Likeness,
    kept: &[Kept],
    same: SameLine,
    text: &mut T,
) -> bool
    ensures whole { IsTrue result → Appends (T.contents text.old) (T.contents text.new)
        (line_of_same form likeness (map candidate_of kept.now) same) }
    ensures front { AppendsFront (T.contents text.old) (T.contents text.new)
        (line_of_same form likeness (map candidate_of kept.now) same) }
{
    match same_line(alloc, form, likeness, kept, same) {
        Ok(line) => write_whole(line.as_bytes(), text),
        Err(_) => false,
    }
}

// Writes the lines of the images that are the same as another, or as much of them as the writer takes, and answers
// whether it took all.
fn write_lines<T: Write>(
    alloc: Global,
    form: SurveyForm,
    likeness: Likeness,
    kept: &[Kept],
    lines: &[SameLine],
    text: &mut T,
) -> bool
    ensures whole { IsTrue result → Appends (T.contents text.old) (T.contents text.new)
        (flat_map (line_of_same form likeness (map candidate_of kept.now)) lines.now) }
    ensures front { AppendsFront (T.contents text.old) (T.contents text.new)
        (flat_map (line_of_same form likeness (map candidate_of kept.now)) lines.now) }
{
    for same in lines {
        if !write_same(alloc, form, likeness, kept, *same, text) {
            return false;
        }
    }
    true
}

// Writes the lines of the images that have the files of another, and behind them those of the images that have the disk
// of another, or as much of them as the writer takes, and answers whether it took all.
fn write_all_lines<T: Write>(
    alloc: Global,
    form: SurveyForm,
    kept: &[Kept],
    same: &[SameLine],
    twins: &[SameLine],
    text: &mut T,
) -> bool
    ensures whole { IsTrue result → Appends (T.contents text.old) (T.contents text.new)
        (same_lines_text form (map candidate_of kept.now) same.now twins.now) }
    ensures front { AppendsFront (T.contents text.old) (T.contents text.new)
        (same_lines_text form (map candidate_of kept.now) same.now twins.now) }
{
    if !write_lines(alloc, form, Likeness::Files, kept, same, text) {
        return false;
    }
    write_lines(alloc, form, Likeness::Disk, kept, twins, text)
}

impl Survey {
    /// A survey of no files yet, to be told in a form.
    pub fn new(alloc: Global, form: SurveyForm) -> Survey
        ensures form { result.form ≡ form }
        ensures none { IsSurveyOf [] result }
    {
        Survey {
            form,
            counts: Counts::none(),
            images: Images::none(alloc),
        }
    }

    // Notes what was found of one more file.
    fn note(
        &mut self,
        alloc: Global,
        path: &str,
        file: Option<FileId>,
        found: &Surveyed,
    ) -> Result<(), AllocError>
        ensures form { self.new.form ≡ self.old.form }
        ensures noted { OnOk result ((told : List Told) → IsSurveyOf told self.old
            → IsSurveyOf (told ++ (record { path = path.now; file = file; found = found.now }) ∷ []) self.new) }
        ensures same { OnErr result ((told : List Told) → IsSurveyOf told self.old → IsSurveyOf told self.new) }
    {
        let Some(counts) = self.counts.with(found) else {
            return Err(AllocError);
        };
        if let Some(best) = found.best() {
            self.images.add(alloc, path, file, best)?;
        }
        self.counts = counts;
        Ok(())
    }

    /// Tells what was found of one more file, with its path, on a line. Paths that lead to one file are told apart by
    /// the file, where it is known: only the first of them may be told to be the same as another.
    ///
    /// # Errors
    /// `Memory`, and then nothing is told and the survey is as it was; more than 2^64 - 1 files of a kind count as
    /// that. `Output` where the writer fails, behind a front of the line.
    pub fn add<T: Write>(
        &mut self,
        alloc: Global,
        path: &str,
        file: Option<FileId>,
        found: &Surveyed,
        text: &mut T,
    ) -> Result<(), SurveyError>
        ensures told { IsTelling (record { path = path.now; file = file; found = found.now }) self.old self.new
            (T.contents text.old) (T.contents text.new) result }
        ensures form { self.new.form ≡ self.old.form }
    {
        let line = file_line(alloc, self.form, path, found)?;
        self.note(alloc, path, file, found)?;
        if write_whole(line.as_bytes(), text) {
            Ok(())
        } else {
            Err(SurveyError::Output)
        }
    }

    /// Tells which images have the files of another, which have the disk of another, how many files there are of each
    /// kind, and that so many things were passed over; flushes the writer, and answers the status: 0, or 1 where an
    /// image has no best reading or no volume, or a file could not be read; 4 where the writer fails or there is no
    /// memory.
    pub fn end<T: Write>(self, alloc: Global, passed: u64, text: &mut T) -> u8
        ensures { (told : List Told) → IsSurveyOf told self
            → IsEnded self.form told passed result (T.contents text.old) (T.contents text.new) }
    {
        let Survey {
            form,
            counts,
            images,
        } = self;
        let Images { kept, .. } = images;
        let Ok(same) = same_lines(alloc, kept.as_slice(), Likeness::Files) else {
            return FAILED;
        };
        let Ok(twins) = same_lines(alloc, kept.as_slice(), Likeness::Disk) else {
            return FAILED;
        };
        let (same, twins) = (same.as_slice(), twins.as_slice());
        if !write_all_lines(alloc, form, kept.as_slice(), same, twins, text) {
            return FAILED;
        }
        let totals = Totals {
            counts,
            same: same.len(),
            twins: twins.len(),
            passed,
        };
        match last_line(alloc, form, totals) {
            Ok(line) => written(line.as_bytes(), counts.status(), text),
            Err(_) => FAILED,
        }
    }
}
