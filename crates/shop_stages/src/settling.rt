// A job, settled by its images where it leaves to them how they are read.
use crate::noting::note_ways;
use crate::opening::Opened;
use crate::stop::Stop;
use a2_device::Order;
use disk_container::{Container, MOST_BYTES, begins_like_container};
use image_readings::{Choice, best_reading, file_system_word, order_word};
use image_settling::{OpenContainer, found_order, found_way, open_container};
use shop_commands::is_protected;
use shop_files::{Found, JobFiles, foreign_of, warn_of_order};
use shop_host::Host;
use shop_inputs::{ImageUse, extra_bytes};
use shop_jobs::{Beside, FileSystem, ImageReading, Job, Ways};
use shop_replies::{Refusal, Side};
use std::alloc::Global;

// What a container says, if there is one.
fn said_by(container: &Option<OpenContainer>) -> Option<Container> {
    Some(container.as_ref()?.says)
}

// Why a job of containers is refused: its new file is looked at first, and the image that is put into a container
// stands in none.
fn refuse_wrapping<H: Host>(
    host: &mut H,
    job: &Job,
    files: &JobFiles,
    image: &[u8],
) -> Result<(), Stop> {
    if files.has_no_free_place(host) {
        return Err(Stop::from(Refusal::Exists));
    }
    if !job.input.is_settled() && begins_like_container(image) {
        return Err(Stop::from(Refusal::Length));
    }
    Ok(())
}

// The image of a job, taken out of its container where it is read as one, which lets it be written where the job does
// that.
fn open_payload(
    alloc: Global,
    job: &Job,
    is_bare: bool,
    files: &JobFiles,
    image: &mut Vec<u8>,
) -> Result<Option<OpenContainer>, Stop> {
    let Some(order) = job.input.reading.order() else {
        return Ok(None);
    };
    let container = open_container(alloc, order, is_bare, image)?;
    let replaces = files.image_use(false) == ImageUse::Replace;
    match said_by(&container) {
        Some(says) if is_protected(job, replaces, says) => Err(Stop::from(Refusal::Protected)),
        _ => Ok(container),
    }
}

// How the image of a job is read, once it is out of its container.
fn way_of_image<H: Host>(
    alloc: Global,
    job: &Job,
    is_bare: bool,
    opened: &mut Opened<H>,
    image: &mut Vec<u8>,
) -> Result<(FileSystem, Order), Stop> {
    opened.container = open_payload(alloc, job, is_bare, &opened.files, image)?;
    let says = said_by(&opened.container);
    Ok(found_way(alloc, &job.input.reading, image, says)?)
}

// The order of the other image of a comparison. Where it is left to that image, the bytes are read for it, and kept.
fn order_of_other<H: Host>(
    host: &mut H,
    beside: &Beside,
    file_system: FileSystem,
    extra: &mut Option<Vec<u8>>,
) -> Result<Order, Stop> {
    let Beside::Image { order, .. } = beside else {
        return Ok(Order::Dos);
    };
    if let Some(order) = order.known() {
        return Ok(order);
    }
    let mut other = extra_bytes(host, beside)?;
    let alloc = host.alloc();
    let says = said_by(&open_container(alloc, *order, false, &mut other)?);
    let found = found_order(alloc, *order, file_system, &mut other, says)?;
    *extra = Some(other);
    Ok(found)
}

// In which ways the images of a job are read; `None` of a job that leaves nothing to them.
fn ways_of<H: Host>(
    host: &mut H,
    job: &Job,
    is_of_containers: bool,
    opened: &mut Opened<H>,
    image: &mut Vec<u8>,
) -> Result<Option<Ways>, Stop> {
    if is_of_containers {
        refuse_wrapping(host, job, &opened.files, image.as_slice())?;
    }
    if job.input.is_settled() {
        return Ok(None);
    }
    let beside = &job.input.beside;
    let way = way_of_image(host.alloc(), job, is_of_containers, opened, image);
    let (file_system, order) = way.map_err(|stop| stop.of_image(beside, Side::First))?;
    let other = order_of_other(host, beside, file_system, &mut opened.extra);
    let other_order = other.map_err(|stop| stop.of_image(beside, Side::Second))?;
    Ok(Some(Ways {
        file_system,
        order,
        other_order,
    }))
}

// The same, found and noted. The bytes of the image are read for it, and where the answer is to be explained. Of an
// image that was taken out of a container it is not said that the file is one.
fn found_ways<H: Host>(
    host: &mut H,
    job: &Job,
    is_of_containers: bool,
    opened: &mut Opened<H>,
    found: &mut Found,
) -> Result<Option<Ways>, Stop> {
    if job.input.is_settled() && !found.is_wanted && !is_of_containers {
        return Ok(None);
    }
    let mut image = match opened.image.bytes(host, MOST_BYTES as u32) {
        Ok(image) => image,
        Err(failure) => {
            return Err(Stop::from(failure).of_image(&job.input.beside, Side::First));
        }
    };
    found.bytes = Some(image.len());
    found.foreign = foreign_of(image.as_slice());
    let ways = ways_of(host, job, is_of_containers, opened, &mut image);
    if opened.container.is_some() {
        found.foreign = None;
    }
    match ways {
        Ok(_) => opened.bytes = Some(image),
        Err(stop) => note_ways(host.alloc(), stop, &opened.container, image, found),
    }
    ways
}

/// Finds in which ways the images of a job are read, puts that into what the job reads, and notes in which order it
/// reads its image. Of a job that makes a container, or takes an image out of one, the new file is looked at before the
/// image is; any other image may stand in a container, and is taken out of it.
pub fn settle<H: Host>(
    host: &mut H,
    job: &mut Job,
    is_of_containers: bool,
    opened: &mut Opened<H>,
    found: &mut Found,
) -> Result<(), Stop> {
    if let Some(ways) = found_ways(host, job, is_of_containers, opened, found)? {
        job.input.settle(ways);
    }
    found.order = job.input.reading.order().and_then(|order| order.known());
    Ok(())
}

/// Warns where another way to read the image is better than that of a job that changes its volume, if its answer is to
/// be explained.
pub fn warn<H: Host>(host: &mut H, reading: &ImageReading, opened: &mut Opened<H>, found: &Found) {
    if !found.is_wanted {
        return;
    }
    let (Some(volume), Some(image)) = (reading.volume(), &mut opened.bytes) else {
        return;
    };
    let said = (volume.file_system, volume.order);
    if let Ok(Choice::Way { file_system, order }) = best_reading(host.alloc(), image, None, None)
        && (file_system, order) != said
    {
        warn_of_order(host, file_system_word(file_system), order_word(order));
    }
}
