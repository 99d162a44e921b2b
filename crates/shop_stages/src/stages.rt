// The program, stage by stage.
use crate::adding::add_job;
use crate::asking::asked_job;
use crate::creating::create_job;
use crate::doing::{change_in_place, reply_of};
use crate::ending::{end, end_in_place, explain_answer};
use crate::extracting::extract_job;
use crate::noting::copy_of;
use crate::opening::{Opened, open_job};
use crate::settling::{settle, warn};
use crate::stop::Stop;
use crate::surveying::survey_job;
use explanations::Overheard;
use shop_files::Found;
use shop_host::Host;
use shop_jobs::{Ask, Change, Job, Look, VolumeAsk};
use shop_outputs::Ending;
use shop_replies::Refusal;
use shop_words::{Asked, Unread, asks_explain, read_words};
use std::io::Write;

/// Does what words ask for on a host: reads and writes its files, tells the answer to `text`, and answers the status.
/// Where the words ask for that, what was told is explained on standard error.
pub fn run<H: Host, T: Write>(host: &mut H, words: &[String], text: &mut T) -> u8 {
    let read = read_words(host.alloc(), words);
    let mut found = Found::new();
    found.is_wanted = match &read {
        Ok(asked) => asked.is_explained(),
        Err(_) => asks_explain(words),
    };
    if !found.is_wanted {
        return run_noting(host, words, &read, &mut found, text);
    }
    let mut text = Overheard::new(host.alloc(), text);
    let status = run_noting(host, words, &read, &mut found, &mut text);
    explain_answer(host, &found, &text.told);
    status
}

// Does what words ask for, notes what becomes known on the way, and answers the status.
fn run_noting<H: Host, T: Write>(
    host: &mut H,
    words: &[String],
    read: &Result<Asked<'_>, Unread>,
    found: &mut Found,
    text: &mut T,
) -> u8 {
    let ending = match run_stages(host, words, read, found, text) {
        Ok(ending) => ending,
        Err(stop) => stop.end(text),
    };
    found.unwritten = ending.unwritten;
    ending.status
}

// Does a job that leaves the file of its image as it is, and may be a look at a volume: tells the reply to it, and puts
// its files into their places. The bytes of a file that are told are no words of the program's.
fn reply_job<H: Host, T: Write>(
    host: &mut H,
    job: &Job,
    look: Option<&Look>,
    opened: &mut Opened<H>,
    found: &mut Found,
    text: &mut T,
) -> Result<Ending, Stop> {
    if opened.files.has_no_free_place(host) {
        return Err(Stop::from(Refusal::Exists));
    }
    let reply = reply_of(host, job, look, opened);
    if found.is_wanted {
        found.fault_files = copy_of(host.alloc(), reply.fault_files());
    }
    let ending = end(host, job, reply, &opened.files, text);
    let is_read = matches!(look, Some(Look::Read { to_file: false, .. }));
    found.is_content = ending.status == 0 && is_read;
    Ok(ending)
}

// Changes a volume, in its image's own file or in another, and ends the job.
fn change_job<H: Host, T: Write>(
    host: &mut H,
    job: &Job,
    change: &Change,
    opened: &mut Opened<H>,
    found: &mut Found,
    text: &mut T,
) -> Result<Ending, Stop> {
    if !job.output.is_in_place() {
        return reply_job(host, job, None, opened, found, text);
    }
    let mut certificate = opened.files.certificate_output(host.alloc());
    match change_in_place(host, job, change, opened, &mut certificate) {
        Ok(outcome) => Ok(end_in_place(host, outcome, certificate, text)),
        Err(stop) => {
            certificate.discard(host);
            Err(stop)
        }
    }
}

// Does what is asked of the volume of an image, and ends the job.
fn do_on_volume<H: Host, T: Write>(
    host: &mut H,
    job: &Job,
    ask: &VolumeAsk,
    opened: &mut Opened<H>,
    found: &mut Found,
    text: &mut T,
) -> Result<Ending, Stop> {
    match ask {
        VolumeAsk::Look(look) => reply_job(host, job, Some(look), opened, found, text),
        VolumeAsk::Extract(options) => extract_job(host, job, *options, opened, text),
        VolumeAsk::Add(options) => {
            warn(host, &job.input.reading, opened, found);
            add_job(host, job, options, opened, text)
        }
        VolumeAsk::Change(change) => {
            warn(host, &job.input.reading, opened, found);
            change_job(host, job, change, opened, found, text)
        }
    }
}

// Does the job that the words ask for, by what that is: here alone it is told apart. The files of one that has an image
// are opened first, and what the words leave to the images is put into it.
fn run_stages<H: Host, T: Write>(
    host: &mut H,
    words: &[String],
    read: &Result<Asked<'_>, Unread>,
    found: &mut Found,
    text: &mut T,
) -> Result<Ending, Stop> {
    let mut job = asked_job(host.alloc(), words, read, text)?;
    let is_of_containers = match &job.ask {
        Ask::Survey(form) => {
            return survey_job(host, &job.input.image, *form, found.is_wanted, text);
        }
        Ask::Create(options) => return create_job(host, &job, options, found, text),
        Ask::Wrap(_) | Ask::Unwrap => true,
        Ask::Identify | Ask::Convert { .. } | Ask::Volume(_) => false,
    };
    let mut opened = open_job(host, &job, found)?;
    settle(host, &mut job, is_of_containers, &mut opened, found)?;
    match &job.ask {
        Ask::Volume(ask) => do_on_volume(host, &job, ask, &mut opened, found, text),
        _ => reply_job(host, &job, None, &mut opened, found, text),
    }
}
