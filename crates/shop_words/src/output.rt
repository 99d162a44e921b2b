//! Where what a command makes goes.
ghost use Rattle.shop_jobs.specs.Job.{target_view};
ghost use Rattle.shop_words.specs.Given.{said_of};
ghost use Rattle.shop_words.specs.Gives.{Gives};
ghost use Rattle.shop_words.specs.Job.{output_by, target_by};
ghost use Rattle.shop_words.specs.declared.table.Verb.TheVariants as verbs;

use crate::given::Given;
use crate::misfit::Misfit;
use crate::table::Verb;
use shop_jobs::Target;
use std::alloc::Global;

// Where an image goes that is changed.
fn target_in(alloc: Global, given: &Given<'_, '_>) -> Result<Target, Misfit>
    ensures { Gives target_view (target_by (said_of given.now)) result }
{
    match (given.said("out"), given.has("in-place")) {
        (Some(file), false) => Ok(Target::File(file.to_string(alloc)?)),
        (None, true) => Ok(Target::InPlace),
        (Some(_), true) => Err(Misfit::TwoTargets),
        (None, false) => Err(Misfit::NoTarget),
    }
}

// The new file that the bytes of a file go to, where one is said.
fn new_file_in(alloc: Global, given: &Given<'_, '_>) -> Result<Target, Misfit>
    ensures { Gives target_view (output_by verbs.Read (said_of given.now)) result }
{
    match given.text(alloc, "out")? {
        Some(file) => Ok(Target::NewFile(file)),
        None => Ok(Target::Nothing),
    }
}

/// Where what a command makes goes.
pub fn output_in(alloc: Global, verb: Verb, given: &Given<'_, '_>) -> Result<Target, Misfit>
    ensures { Gives target_view (output_by verb (said_of given.now)) result }
{
    match verb {
        Verb::Read => new_file_in(alloc, given),
        Verb::Extract => Ok(Target::Folder(given.needed_text(alloc, "into")?)),
        Verb::Convert | Verb::Add => Ok(Target::File(given.needed_text(alloc, "out")?)),
        Verb::Wrap | Verb::Unwrap | Verb::Create => {
            Ok(Target::NewFile(given.needed_text(alloc, "out")?))
        }
        Verb::Optimize
        | Verb::Lock
        | Verb::Unlock
        | Verb::Delete
        | Verb::Rename
        | Verb::Save
        | Verb::Reclaim
        | Verb::MakeDirectory => target_in(alloc, given),
        _ => Ok(Target::Nothing),
    }
}
