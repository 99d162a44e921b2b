//! What is asked by the commands that make an image or a container of another, and by those that look at files whatever
//! they are.
ghost use Rattle.std.specs.Prelude.{◌≡◌, option_map};
ghost use Rattle.shop_jobs.specs.Job.{wrapping_view};
ghost use Rattle.shop_words.specs.Given.{said_of};
ghost use Rattle.shop_words.specs.Gives.{Gives};
ghost use Rattle.shop_words.specs.Job.{
  comment_said,
  survey_form_said,
  told_volume,
  volume_number,
  wrapping_by,
};

use crate::given::Given;
use crate::misfit::Misfit;
use crate::reading::number;
use shop_jobs::{SurveyForm, WrapOptions};
use std::alloc::Global;

/// The volume number where `--volume` is left out.
const STANDARD_VOLUME: u8 = 254;

/// The most bytes of a comment.
const MOST_COMMENT: usize = 65_472;

/// The volume number of tracks that are made.
pub fn volume_number(word: Option<&str>) -> Result<u8, Misfit>
    ensures { Gives (λ v. v) (volume_number (option_map (λ s. s.now) word.entry)) result }
{
    match word {
        Some(digits) => Ok(number("volume", digits, 255)? as u8),
        None => Ok(STANDARD_VOLUME),
    }
}

// The volume number that a container tells, where one is said.
fn told_volume(word: Option<&str>) -> Result<Option<u8>, Misfit>
    ensures { Gives (λ v. v) (told_volume (option_map (λ s. s.now) word.entry)) result }
{
    match word {
        Some(digits) => Ok(Some(number("volume", digits, 255)? as u8)),
        None => Ok(None),
    }
}

// The comment, empty where none is said.
fn comment_said<'a>(word: Option<&'a str>) -> Result<&'a str, Misfit>
    ensures { Gives (λ s. s.now) (comment_said (option_map (λ s. s.now) word.entry)) result }
{
    match word {
        None => Ok(""),
        Some(word) if word.len() <= MOST_COMMENT => Ok(word),
        Some(_) => Err(Misfit::Value { name: "comment" }),
    }
}

/// How an image is put into a container.
pub fn wrap_in(alloc: Global, given: &Given<'_, '_>) -> Result<WrapOptions, Misfit>
    ensures { Gives wrapping_view (wrapping_by (said_of given.now)) result }
{
    let volume = told_volume(given.said("volume"))?;
    let comment = comment_said(given.said("comment"))?;
    Ok(WrapOptions {
        volume,
        comment: comment.to_string(alloc)?,
        protect: given.has("protect"),
    })
}

/// The form of a survey, lines where nothing is said.
pub fn survey_form_said(word: Option<&str>) -> Result<SurveyForm, Misfit>
    ensures { Gives (λ f. f) (survey_form_said (option_map (λ s. s.now) word.entry)) result }
{
    match word {
        None | Some("lines") => Ok(SurveyForm::Lines),
        Some("json") => Ok(SurveyForm::Json),
        Some(_) => Err(Misfit::Value { name: "format" }),
    }
}
