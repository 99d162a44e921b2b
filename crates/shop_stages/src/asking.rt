// The job that words ask for.
use crate::stop::Stop;
use shop_commands::tell_words_fault;
use shop_help::{misfit_fault, read_fault};
use shop_jobs::Job;
use shop_words::{Asked, Unread};
use std::alloc::Global;
use std::io::Write;

/// The job of words that were read or were not; or it was told why there is none, or the help that they ask for.
pub fn asked_job<T: Write>(
    alloc: Global,
    words: &[String],
    read: &Result<Asked<'_>, Unread>,
    text: &mut T,
) -> Result<Job, Stop> {
    let fault = match read {
        Ok(asked) => match asked.job(alloc) {
            Ok(job) => return Ok(job),
            Err(misfit) => misfit_fault(alloc, asked, misfit),
        },
        Err(unread) => read_fault(alloc, words, unread),
    };
    Err(Stop::Told(tell_words_fault(&fault, text)))
}
