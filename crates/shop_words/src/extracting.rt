//! How the files of a volume go into a folder by `extract`, and those of a folder to a volume by `add`.
ghost use Rattle.std.specs.Prelude.{◌≡◌, codes, option_map};
ghost use Rattle.shop_jobs.specs.Job.{addition_view};
ghost use Rattle.shop_words.specs.Given.{said_of};
ghost use Rattle.shop_words.specs.Gives.{Gives};
ghost use Rattle.shop_words.specs.Job.{
  addition_by,
  directory_said,
  extraction_by,
  is_dos_said,
  naming_said,
};

use crate::given::Given;
use crate::misfit::Misfit;
use crate::reading::{most_bytes, text_of};
use host_folders::Naming;
use shop_jobs::{AddOptions, ExtractOptions};
use std::alloc::Global;

// How files are named, with their types where nothing is said.
fn naming_said(word: Option<&str>) -> Result<Naming, Misfit>
    ensures { Gives (λ n. n) (naming_said (option_map (λ s. s.now) word.entry)) result }
{
    match word {
        None | Some("naps") => Ok(Naming::Naps),
        Some("plain") => Ok(Naming::Plain),
        Some(_) => Err(Misfit::Value { name: "names" }),
    }
}

/// How the files of a volume are put into a folder.
pub fn extract_in(given: &Given<'_, '_>) -> Result<ExtractOptions, Misfit>
    ensures { Gives (λ o. o) (extraction_by (said_of given.now)) result }
{
    let naming = naming_said(given.said("names"))?;
    let most = most_bytes(given.said("most"))?;
    Ok(ExtractOptions {
        naming,
        texts: given.has("texts"),
        most,
    })
}

// The directory of the volume under which the paths of the files begin, where one is said; a DOS 3.3 disk has none.
fn directory_in<'a>(given: &Given<'_, 'a>) -> Result<Option<&'a str>, Misfit>
    ensures { Gives (λ d. option_map (λ s. s.now) d)
        (directory_said (is_dos_said (said_of given.now (codes "fs"))) (said_of given.now (codes "into"))) result }
{
    match (given.file_system_said(), given.said("into")) {
        (Some("dos"), Some(_)) => Err(Misfit::OfProdos { name: "into" }),
        (_, into) => Ok(into),
    }
}

/// How the files of a folder are added.
pub fn add_in(alloc: Global, given: &Given<'_, '_>) -> Result<AddOptions, Misfit>
    ensures { Gives addition_view (addition_by (said_of given.now)) result }
{
    let into = directory_in(given)?;
    Ok(AddOptions {
        into: text_of(alloc, into)?,
        date: given.text(alloc, "date")?,
    })
}
