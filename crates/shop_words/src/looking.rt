//! What is asked by the commands that only read a volume.
ghost use Rattle.std.specs.Prelude.{◌≡◌, option_map, Some};
ghost use Rattle.shop_jobs.specs.Job.{look_view};
ghost use Rattle.shop_words.specs.Given.{said_of};
ghost use Rattle.shop_words.specs.Gives.{Gives};
ghost use Rattle.shop_words.specs.Job.{
  check_by,
  compare_by,
  form_for as form_taken,
  form_said,
  list_by,
  plan_by,
  read_by,
  read_form_named,
  read_form_said,
  verify_by,
};

use crate::given::Given;
use crate::misfit::Misfit;
use crate::reading::most_bytes;
use file_forms::FileForm;
use shop_jobs::{CompareOptions, ListForm, ListOptions, Look, ReadForm};
use std::alloc::Global;

// The form of a list, the names where none is said.
fn form_said(word: Option<&str>) -> Result<ListForm, Misfit>
    ensures { Gives (λ f. f) (form_said (option_map (λ s. s.now) word.entry)) result }
{
    match word {
        None | Some("names") => Ok(ListForm::Names),
        Some("json") => Ok(ListForm::Json),
        Some("csv") => Ok(ListForm::Csv),
        Some(_) => Err(Misfit::Value { name: "format" }),
    }
}

// The form of a list, which is JSON where places are told.
fn form_for(places: bool, form: ListForm) -> Result<ListForm, Misfit>
    ensures { Gives (λ f. f) (form_taken places (Some form)) result }
{
    match form {
        ListForm::Names | ListForm::Csv if places => Err(Misfit::PlacesWithoutJson),
        form => Ok(form),
    }
}

/// The look that is made by `list`.
pub fn list_in(given: &Given<'_, '_>) -> Result<Look, Misfit>
    ensures { Gives look_view (list_by (said_of given.now)) result }
{
    let places = given.has("places");
    let form = form_said(given.said("format"))?;
    let form = form_for(places, form)?;
    let most = most_bytes(given.said("most"))?;
    Ok(Look::Entries(ListOptions {
        form,
        digests: given.has("digests"),
        places,
        most,
    }))
}

/// The look that is made by `compare`.
pub fn compare_in(given: &Given<'_, '_>) -> Result<Look, Misfit>
    ensures { Gives look_view (compare_by (said_of given.now)) result }
{
    let most = most_bytes(given.said("most"))?;
    Ok(Look::Compare(CompareOptions {
        all: given.has("all"),
        most,
    }))
}

/// The look that is made by `check`.
pub fn check_in(given: &Given<'_, '_>) -> Look
    ensures { look_view result ≡ check_by (said_of given.now) }
{
    Look::Check {
        bodies: given.has("bodies"),
    }
}

// The form of a file that a word names.
fn read_form_named(word: &str) -> Option<ReadForm>
    ensures { result ≡ read_form_named word.now }
{
    match word {
        "text" => Some(ReadForm::As(FileForm::Text)),
        "applesoft" => Some(ReadForm::As(FileForm::Applesoft)),
        "integer" => Some(ReadForm::As(FileForm::Integer)),
        "single" => Some(ReadForm::As(FileForm::Single)),
        "shown" => Some(ReadForm::Shown),
        _ => None,
    }
}

// As what a file is read: its body, the whole of it or a form of it.
fn read_form_said(whole: bool, word: Option<&str>) -> Result<ReadForm, Misfit>
    ensures { Gives (λ f. f) (read_form_said whole (option_map (λ s. s.now) word.entry)) result }
{
    match (whole, word) {
        (false, None) => Ok(ReadForm::Body),
        (true, None) => Ok(ReadForm::Whole),
        (true, Some(_)) => Err(Misfit::WholeAndForm),
        (false, Some(word)) => match read_form_named(word) {
            Some(form) => Ok(form),
            None => Err(Misfit::Value { name: "as" }),
        },
    }
}

/// The look that is made by `read`.
pub fn read_in(alloc: Global, given: &Given<'_, '_>) -> Result<Look, Misfit>
    ensures { Gives look_view (read_by (said_of given.now)) result }
{
    let form = read_form_said(given.has("whole"), given.said("as"))?;
    let name = given.name(alloc)?;
    Ok(Look::Read {
        name,
        form,
        to_file: given.said("out").is_some(),
    })
}

/// The look that is made by `plan`.
pub fn plan_in(given: &Given<'_, '_>) -> Look
    ensures { look_view result ≡ plan_by (said_of given.now) }
{
    Look::Plan {
        reclaim: given.has("reclaim"),
        words: given.has("words"),
    }
}

/// The look that is made by `verify`.
pub fn verify_in(given: &Given<'_, '_>) -> Look
    ensures { look_view result ≡ verify_by (said_of given.now) }
{
    Look::Verify {
        reclaim: given.has("reclaim"),
    }
}
