// The files of a job, ended, and its answer told.
use shop_changes::Outcome;
use shop_files::{Found, JobFiles, explain};
use shop_host::Host;
use shop_jobs::Job;
use shop_outputs::{Ending, Output, Unwritten, end_by, tell_output, tells_of_output};
use shop_replies::Reply;
use std::io::Write;

// Tells that a volume is in order, and puts its certificate into its place. What is told is true of the image, so it is
// told where the certificate can't be written too.
fn end_in_order<H: Host, T: Write>(
    host: &mut H,
    outcome: Outcome,
    is_on_disk: bool,
    certificate: Output<'_, H>,
    text: &mut T,
) -> Ending {
    if outcome.tell(text) != 0 {
        certificate.discard(host);
        return Ending::stopped(Unwritten::TextAfterImage);
    }
    if !is_on_disk {
        certificate.discard(host);
        return Ending::stopped(Unwritten::CertificateAfterImage);
    }
    match certificate.take_place(host) {
        Ok(()) => Ending::written(0),
        Err(_) => Ending::stopped(Unwritten::CertificateAfterImage),
    }
}

/// Tells what became of an image in its own file, and ends the file of its certificate.
pub fn end_in_place<H: Host, T: Write>(
    host: &mut H,
    outcome: Outcome,
    mut certificate: Output<'_, H>,
    text: &mut T,
) -> Ending {
    if let Outcome::Optimized(report) = &outcome {
        certificate.put(host, report.cert.as_slice());
        let is_on_disk = certificate.flush_to_disk(host).is_ok();
        return end_in_order(host, outcome, is_on_disk, certificate, text);
    }
    certificate.discard(host);
    let is_changed = matches!(outcome, Outcome::Changed);
    let status = outcome.tell(text);
    if is_changed && status != 0 {
        return Ending::stopped(Unwritten::TextAfterImage);
    }
    Ending::written(status)
}

/// Tells the reply to a job, and puts its files into their places.
pub fn end<H: Host, T: Write>(
    host: &mut H,
    job: &Job,
    reply: Reply,
    files: &JobFiles,
    text: &mut T,
) -> Ending {
    let certificate = files.certificate_output(host.alloc());
    let out = files.output(host.alloc());
    let ending = end_by(host, reply, out, certificate, text);
    if tells_of_output(job) {
        tell_output(ending, text)
    } else {
        ending
    }
}

/// Explains on standard error an answer that was told, if it is not the bytes of a file.
pub fn explain_answer<H: Host>(host: &mut H, found: &Found, told: &Option<Vec<u8>>) {
    let told = match told {
        Some(told) if !found.is_content => told.as_slice(),
        _ => b"",
    };
    explain(host, found, told);
}
