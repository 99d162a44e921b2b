// A job that makes a volume: no image is opened for it, but the one whose system it copies.
use crate::ending::end;
use crate::noting::copy_of;
use crate::opening::job_files;
use crate::stop::Stop;
use a2_device::Order;
use image_readings::{Choice, best_reading};
use shop_commands::reply_to;
use shop_files::{BootFault, Found, foreign_of};
use shop_host::Host;
use shop_inputs::extra_bytes;
use shop_jobs::{CreateOptions, FileSystem, Job, NewVolume};
use shop_outputs::Ending;
use shop_replies::{Refusal, Status, most_bytes};
use std::alloc::Global;
use std::io::Write;

/// The bytes of the unit that a machine loads first, a sector or a half of a block.
const FIRST_BYTES: usize = 256;

// Notes of the image whose system is copied what is told of an image.
fn note_boot(alloc: Global, job: &Job, options: &CreateOptions, found: &mut Found) {
    found.path = copy_of(alloc, job.input.beside.path());
    found.order = Some(options.order);
    found.most = Some(most_bytes(options.order));
}

// Whether the sector that a machine loads first has zeros alone. On tracks of disk bytes it is not looked for.
fn is_without_loader(boot: &[u8], order: Order) -> bool {
    match boot.first_chunk::<FIRST_BYTES>() {
        Some(first) if order != Order::Nibble => first.iter().all(|byte| *byte == 0),
        _ => false,
    }
}

// Whether an image is that of a volume of another file system than a new one.
fn is_of_other_system(alloc: Global, boot: &[u8], options: &CreateOptions) -> bool {
    let own = match &options.volume {
        NewVolume::Dos { .. } => FileSystem::Dos,
        NewVolume::Prodos { .. } => FileSystem::Prodos,
    };
    let Ok(mut image) = Vec::from_slice(alloc, boot) else {
        return false;
    };
    match best_reading(alloc, &mut image, None, None) {
        Ok(Choice::Way { file_system, .. }) => file_system != own,
        _ => false,
    }
}

// Why a machine does not start from a disk that gets its system from this image, if it does not.
fn boot_fault(alloc: Global, boot: &[u8], options: &CreateOptions) -> Option<BootFault> {
    if is_without_loader(boot, options.order) {
        return Some(BootFault::Zeros);
    }
    is_of_other_system(alloc, boot, options).then_some(BootFault::OtherSystem)
}

// Notes what is explained of the bytes of the image whose system is copied.
fn note_bytes(alloc: Global, job: &Job, options: &CreateOptions, boot: &[u8], found: &mut Found) {
    if !found.is_wanted || job.input.beside.path().is_none() {
        return;
    }
    found.bytes = Some(boot.len());
    found.foreign = foreign_of(boot);
    found.boot = boot_fault(alloc, boot, options);
}

/// Makes the volume that a job asks for, and lets its image take a free place.
pub fn create_job<H: Host, T: Write>(
    host: &mut H,
    job: &Job,
    options: &CreateOptions,
    found: &mut Found,
    text: &mut T,
) -> Result<Ending, Stop> {
    let alloc = host.alloc();
    let files = job_files(host, job, found)?;
    if files.has_no_free_place(host) {
        return Err(Stop::from(Refusal::Exists));
    }
    note_boot(alloc, job, options, found);
    let boot = extra_bytes(host, &job.input.beside)?;
    note_bytes(alloc, job, options, boot.as_slice(), found);
    let reply = reply_to(alloc, job, Vec::new(alloc), boot);
    if reply.status != Status::Done {
        found.boot = None;
    }
    Ok(end(host, job, reply, &files, text))
}
