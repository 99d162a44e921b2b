//! The job that words ask for, or what is told of them.
ghost use Rattle.std.specs.Prelude.{◌≡◌, IfErr, IfOk, List, map, Some, string_bytes};
ghost use Rattle.shop_help.specs.Fault.{IsFaultOf, IsRefused};
ghost use Rattle.shop_jobs.specs.Job.{job_view};
ghost use Rattle.shop_words.specs.Asked.{IsTaken, asked_job};
ghost use Rattle.shop_words.specs.Job.{line_job};
ghost use Rattle.shop_words.specs.Plain.{IsLine, IsPlain, Use};
ghost use Rattle.shop_words.specs.Table.{FormView, Text};

use crate::fault::WordsFault;
use crate::misfits::misfit_fault;
use crate::telling::{read_fault, refused};
use shop_jobs::Job;
use shop_words::read_words;
use std::alloc::Global;

/// What is told where a job is asked for at once, and the words leave to an image how it is read.
const LEFT_OPEN: &str = "error: the words are to say how each image is read\n";

/// The refusal of words that leave to an image how it is read.
fn open_fault(alloc: Global) -> WordsFault
    ensures { IsRefused result }
{
    refused(LEFT_OPEN.to_string(alloc))
}

/// The job that the words after the program's name ask for, where they leave nothing to the images.
///
/// A plain list is never refused. Beyond the plain lists, words are taken as `clap` takes them: `--name=value`,
/// and options before positional words.
///
/// # Errors
/// `Help` has the help that was asked for, `Refused` the text for the user: what is wrong, and the usage; words of the
/// user that stand in it have their control characters escaped. `Memory` is want of memory.
pub fn parse_words(alloc: Global, words: &[String]) -> Result<Job, WordsFault>
    ensures job { IfOk result (λ job.
        asked_job (map string_bytes words.now) ≡ Some (job_view job)) }

    // words that clap takes and that have a job are refused for want of memory alone
    ensures taken { IsTaken (map string_bytes words.now)
        → IfErr result (λ e. e ≡ WordsFault.Memory) }

    // help is told of words that may ask for it, and a refusal of words that are mistaken
    ensures fault { IfErr result (IsFaultOf (map string_bytes words.now)) }

    // a plain list is refused for want of memory alone
    ensures plain { IsPlain (map string_bytes words.now)
        → IfErr result (λ e. e ≡ WordsFault.Memory) }

    // and its job is what its form says of its words
    ensures line { (f : FormView) → (positionals : List Text) → (uses : List Use)
        → IsLine (map string_bytes words.now) f positionals uses
        → IfOk result (λ job. line_job f positionals uses ≡ Some (job_view job)) }
{
    let asked = match read_words(alloc, words) {
        Ok(asked) => asked,
        Err(unread) => return Err(read_fault(alloc, words, &unread)),
    };
    let job = match asked.job(alloc) {
        Ok(job) => job,
        Err(misfit) => return Err(misfit_fault(alloc, &asked, misfit)),
    };
    if !job.input.is_settled() {
        return Err(open_fault(alloc));
    }
    Ok(job)
}
