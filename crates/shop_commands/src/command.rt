// Commands, from words to the text.
ghost use Rattle.std.specs.Prelude.{◌≡◌, ◌≢◌, ◌⊎◌, IfErr, IfOk, IfSome, OnOk, Some, map, string_bytes};
ghost use Rattle.shop_jobs.specs.Job.{job_view};
ghost use Rattle.shop_words.specs.Asked.{asked_job};
ghost use Rattle.shop_words.specs.Plain.{IsPlain};
ghost use Rattle.shop_commands.specs.Answer.{
  CommandHandsOut,
  CommandReads,
  CommandReadsImage,
  IsCommandAnswer,
  IsInPlaceCommandAnswer,
  IsWordsAnswer,
  TellsNoJob,
};
ghost use Rattle.shop_replies.specs.Reply.{held};

use crate::job::run_job;
use shop_help::{WordsFault, parse_words};
use shop_jobs::Job;
use shop_replies::{Failure, Reply, written};
use std::alloc::Global;
use std::io::{Read, Write};

/// The status of help that was asked for.
const HELP_TOLD: u8 = 0;

/// The status of refused words.
const WORDS_REFUSED: u8 = 2;

/// Tells why words are no job: 0 and the help that they ask for, 2 and the text for the user, or 4 for want of memory.
pub fn tell_words_fault<T: Write>(fault: &WordsFault, text: &mut T) -> u8
    ensures { IsWordsAnswer fault.now result (T.contents text.old) (T.contents text.new) }
{
    match fault {
        WordsFault::Help(help) => written(help.as_bytes(), HELP_TOLD, text),
        WordsFault::Refused(refusal) => written(refusal.as_bytes(), WORDS_REFUSED, text),
        WordsFault::Memory => Reply::failed(Failure::Memory).tell(text),
    }
}

/// The job that words ask for. Where they ask for none, tells why and answers the status of it: 0 with the help that
/// they ask for, 2 with why they are refused, 4 for want of memory or where the text can't be written.
pub fn job_of_words<T: Write>(alloc: Global, words: &[String], text: &mut T) -> Result<Job, u8>
    ensures job { IfOk result (λ job. asked_job (map string_bytes words.now) ≡ Some (job_view job)) }
    ensures untold { OnOk result (text.new ≡ text.old) }
    ensures told { IfErr result (λ status.
        TellsNoJob (map string_bytes words.now) status (T.contents text.old) (T.contents text.new)) }
    ensures plain { IsPlain (map string_bytes words.now) → IfErr result (λ status. status ≢ WORDS_REFUSED) }
{
    match parse_words(alloc, words) {
        Ok(job) => Ok(job),
        Err(fault) => Err(tell_words_fault(&fault, text)),
    }
}

/// Does the job that the words ask for, on the image of a reader.
pub fn run_command<I: Read, E: Read, T: Write, O: Write>(
    alloc: Global,
    words: &[String],
    image: &mut I,
    extra: &mut E,
    text: &mut T,
    out: &mut O,
) -> u8
    ensures plain { IsPlain (map string_bytes words.now) → result ≢ WORDS_REFUSED }
    ensures answer { IfSome (I.remaining image.old) (λ bytes.
        IsCommandAnswer (map string_bytes words.now) bytes (E.remaining extra.old) result
        (held (T.contents text.old) (O.contents out.old)) (held (T.contents text.new) (O.contents out.new))) }
    ensures in_place { IsInPlaceCommandAnswer (map string_bytes words.now) result
        (held (T.contents text.old) (O.contents out.old)) (held (T.contents text.new) (O.contents out.new)) }
    ensures image { (image.new ≡ image.old) ⊎ CommandReadsImage (map string_bytes words.now) }
    ensures extra { (extra.new ≡ extra.old) ⊎ CommandReads (map string_bytes words.now) }
    ensures out { (out.new ≡ out.old)
        ⊎ CommandHandsOut (map string_bytes words.now) result (T.contents text.old) (T.contents text.new) }
{
    match job_of_words(alloc, words, text) {
        Ok(job) => run_job(alloc, &job, image, extra, text, out),
        Err(status) => status,
    }
}
