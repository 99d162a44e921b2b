// A job, done: on the units of its image's file that it needs, or on all bytes of its image.
ghost use Rattle.a2_device.specs.Device.{DeviceState};
ghost use Rattle.shop_jobs.specs.Input.{reading_view};
ghost use Rattle.shop_commands.specs.OnDevice.{HasUnitsFor};

use crate::opening::Opened;
use crate::stop::Stop;
use a2_device::Device;
use a2_media::{FileDevice, Window};
use shop_changes::Outcome;
use shop_commands::{
    read_job_on_device, reply_to, reply_to_payload, run_job_in_place, unread_reply,
};
use shop_host::Host;
use shop_inputs::{ImageDevice, extra_bytes};
use shop_jobs::{Change, ImageReading, Job, Look};
use shop_outputs::{Output, Unwritten};
use shop_replies::{Failure, Refusal, Reply, Side};

// What became of the work once the file is on the disk: what can't be put there has failed.
fn kept_outcome<H: Host>(host: &mut H, outcome: Outcome, device: &ImageDevice<H>) -> Outcome {
    if device.writes() > 0 && host.flush_units(device.file().file()).is_err() {
        return Outcome::Unfinished(Reply::failed(Failure::Device));
    }
    outcome
}

// Changes a volume on the units of its image's file.
fn change_units<H: Host>(
    host: &mut H,
    change: &Change,
    reading: &ImageReading,
    extra: &[u8],
    device: ImageDevice<H>,
) -> Outcome
    requires units { HasUnitsFor (reading_view reading.now)
        (⟦<FileDevice<Window<H::Units>> as Device>⟧.state device) }
{
    let (outcome, device) = run_job_in_place(host.alloc(), change, reading, extra, device);
    kept_outcome(host, outcome, &device)
}

/// Changes a volume in its image's own file, or does not; the file is on the disk then. The file of a certificate is
/// made before that.
pub fn change_in_place<H: Host>(
    host: &mut H,
    job: &Job,
    change: &Change,
    opened: &Opened<H>,
    certificate: &mut Output<'_, H>,
) -> Result<Outcome, Stop> {
    let reading = &job.input.reading;
    let Some(volume) = reading.volume() else {
        return Err(Stop::from(Refusal::InPlace));
    };
    let device = opened.image.device(host, opened.part(), volume)?;
    let extra = extra_bytes(host, &job.input.beside)?;
    if certificate.open(host).is_err() {
        return Err(Stop::Unwritten(Unwritten::CertificateBeforeImage));
    }
    Ok(change_units(host, change, reading, extra.as_slice(), device))
}

// The reply to a job that looks at a volume, of the file of its image; `None` where all bytes of that were read, or
// where it is no file in which its units stand so, as on standard input.
fn reply_of_units<H: Host>(
    host: &mut H,
    job: &Job,
    look: &Look,
    opened: &mut Opened<H>,
) -> Option<Reply> {
    if opened.bytes.is_some() {
        return None;
    }
    let volume = job.input.reading.volume()?;
    let mut device = opened.image.device(host, opened.part(), volume).ok()?;
    match opened.take_extra(host, &job.input.beside) {
        Ok(extra) => {
            let reply = read_job_on_device(host.alloc(), look, &job.input, extra, &mut device);
            Some(reply)
        }
        Err(failure) => Some(unread_reply(job, Side::Second, failure)),
    }
}

// The reply to a job on all bytes of its image.
fn reply_of_bytes<H: Host>(host: &mut H, job: &Job, opened: &mut Opened<H>) -> Reply {
    let image = match opened.take_image(host, &job.input.reading) {
        Ok(image) => image,
        Err(failure) => return unread_reply(job, Side::First, failure),
    };
    let extra = match opened.take_extra(host, &job.input.beside) {
        Ok(extra) => extra,
        Err(failure) => return unread_reply(job, Side::Second, failure),
    };
    match &opened.container {
        Some(container) => reply_to_payload(host.alloc(), job, image, extra, &container.shell),
        None => reply_to(host.alloc(), job, image, extra),
    }
}

/// The reply to a job that leaves the file of its image as it is, and may be a look at a volume.
pub fn reply_of<H: Host>(
    host: &mut H,
    job: &Job,
    look: Option<&Look>,
    opened: &mut Opened<H>,
) -> Reply {
    if let Some(look) = look
        && let Some(reply) = reply_of_units(host, job, look, opened)
    {
        return reply;
    }
    reply_of_bytes(host, job, opened)
}
