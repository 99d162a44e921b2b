//! The job that the words of a command ask for.
ghost use Rattle.std.specs.Prelude.{◌≡◌};
ghost use Rattle.shop_jobs.specs.Input.{reading_view};
ghost use Rattle.shop_jobs.specs.Job.{
  ask_view,
  change_view,
  ChangeOf,
  job_view,
  look_view,
  LookAt,
  OfTheVolume,
};
ghost use Rattle.shop_words.specs.Given.{said_of, words_of};
ghost use Rattle.shop_words.specs.Gives.{both, Gives};
ghost use Rattle.shop_words.specs.Job.{ask_by, convert_by, job_by, reading_by, words_job};

use crate::changing::{edit_in, mkdir_in, optimize_in, rename_in};
use crate::converting::{survey_form_said, volume_number, wrap_in};
use crate::creating::create_in;
use crate::extracting::{add_in, extract_in};
use crate::given::{Given, order};
use crate::input::{beside_in, source_in};
use crate::looking::{check_in, compare_in, list_in, plan_in, read_in, verify_in};
use crate::misfit::Misfit;
use crate::output::output_in;
use crate::saving::save_in;
use crate::table::Verb;
use shop_jobs::{Ask, Change, Edit, ImageReading, Input, Job, Look, VolumeAsk};
use std::alloc::Global;

// What is asked by a command that looks for this.
fn look_asked(look: Look) -> Ask
    ensures { ask_view result ≡ OfTheVolume (LookAt (look_view look)) }
{
    Ask::Volume(VolumeAsk::Look(look))
}

// What is asked by a command that changes a volume so.
fn change_asked(change: Change) -> Ask
    ensures { ask_view result ≡ OfTheVolume (ChangeOf (change_view change)) }
{
    Ask::Volume(VolumeAsk::Change(change))
}

// What is asked by `convert`.
fn convert_in(given: &Given<'_, '_>) -> Result<Ask, Misfit>
    ensures { Gives ask_view (convert_by (said_of given.now)) result }
{
    let to = order("to", given.needed("to")?)?;
    let volume = volume_number(given.said("volume"))?;
    Ok(Ask::Convert { to, volume })
}

// What a command asks.
fn ask_in(alloc: Global, verb: Verb, given: &Given<'_, '_>) -> Result<Ask, Misfit>
    ensures { Gives ask_view (ask_by verb (said_of given.now)) result }
{
    match verb {
        Verb::Identify => Ok(Ask::Identify),
        Verb::Survey => Ok(Ask::Survey(survey_form_said(given.said("format"))?)),
        Verb::Catalog => Ok(look_asked(Look::Catalog)),
        Verb::List => Ok(look_asked(list_in(given)?)),
        Verb::Map => Ok(look_asked(Look::Map)),
        Verb::Check => Ok(look_asked(check_in(given))),
        Verb::Compare => Ok(look_asked(compare_in(given)?)),
        Verb::Read => Ok(look_asked(read_in(alloc, given)?)),
        Verb::Extract => Ok(Ask::Volume(VolumeAsk::Extract(extract_in(given)?))),
        Verb::Save => Ok(change_asked(save_in(alloc, given)?)),
        Verb::Add => Ok(Ask::Volume(VolumeAsk::Add(add_in(alloc, given)?))),
        Verb::MakeDirectory => Ok(change_asked(mkdir_in(alloc, given)?)),
        Verb::Lock => Ok(change_asked(edit_in(alloc, given, Edit::Lock)?)),
        Verb::Unlock => Ok(change_asked(edit_in(alloc, given, Edit::Unlock)?)),
        Verb::Rename => Ok(change_asked(rename_in(alloc, given)?)),
        Verb::Delete => Ok(change_asked(edit_in(alloc, given, Edit::Delete)?)),
        Verb::Reclaim => Ok(change_asked(Change::Reclaim)),
        Verb::Create => Ok(Ask::Create(create_in(alloc, given)?)),
        Verb::Convert => convert_in(given),
        Verb::Wrap => Ok(Ask::Wrap(wrap_in(alloc, given)?)),
        Verb::Unwrap => Ok(Ask::Unwrap),
        Verb::Plan => Ok(look_asked(plan_in(given))),
        Verb::Optimize => Ok(change_asked(optimize_in(given)?)),
        Verb::Verify => Ok(look_asked(verify_in(given))),
    }
}

// How a command reads its image, and what it asks. Where the words are wrong in both, some commands tell the one, and
// the rest the other.
fn reading_and_ask_in(
    alloc: Global,
    verb: Verb,
    given: &Given<'_, '_>,
) -> Result<(ImageReading, Ask), Misfit>
    ensures { Gives (λ found. (reading_view found.0, ask_view found.1)) (both
        (reading_by (words_of given.now).form.verb (words_of given.now).form.reading (said_of given.now))
        (ask_by verb (said_of given.now))) result }
{
    match verb {
        Verb::Extract | Verb::Add | Verb::Convert | Verb::Wrap => {
            let reading = given.reading(alloc)?;
            let ask = ask_in(alloc, verb, given)?;
            Ok((reading, ask))
        }
        _ => {
            let ask = ask_in(alloc, verb, given)?;
            let reading = given.reading(alloc)?;
            Ok((reading, ask))
        }
    }
}

// The job of a command.
fn command_job(alloc: Global, given: &Given<'_, '_>) -> Result<Job, Misfit>
    ensures { Gives job_view (job_by (words_of given.now).form (said_of given.now)) result }
{
    let verb = given.form.verb;
    let image = source_in(alloc, verb, given)?;
    let beside = beside_in(alloc, verb, given)?;
    let (reading, ask) = reading_and_ask_in(alloc, verb, given)?;
    let output = output_in(alloc, verb, given)?;
    Ok(Job {
        input: Input {
            image,
            reading,
            beside,
        },
        ask,
        output,
        certificate: given.text(alloc, "cert")?,
    })
}

/// The job of words.
pub fn job_in(alloc: Global, given: &Given<'_, '_>) -> Result<Job, Misfit>
    ensures { Gives job_view (words_job (words_of given.now)) result }
{
    if given.is_auto && matches!(given.form.verb, Verb::Create) {
        return Err(Misfit::AutoOfNewVolume);
    }
    command_job(alloc, given)
}
