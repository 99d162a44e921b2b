// What is noted of a job on its way, where its answer is to be explained.
use crate::stop::Stop;
use image_readings::{identify_reply, order_word};
use image_settling::OpenContainer;
use shop_files::Found;
use shop_jobs::{Beside, Job, Source};
use shop_replies::{Refusal, Side};
use std::alloc::Global;

/// The word for standard input.
const STANDARD_INPUT: &str = "-";

/// A text that may be left out, as one of its own, if there is memory for it.
pub fn copy_of(alloc: Global, text: Option<&str>) -> Option<String> {
    text?.to_string(alloc).ok()
}

// What is noted of where an image comes from: its path, or the word for standard input.
fn word_of(source: &Source) -> Option<&str> {
    match source {
        Source::Nothing => None,
        Source::StandardInput => Some(STANDARD_INPUT),
        Source::File(path) => Some(path.as_str()),
    }
}

// The same of what stands beside the image.
fn word_beside(beside: &Beside) -> Option<&str> {
    match beside {
        Beside::Nothing => None,
        Beside::File(path) | Beside::Folder(path) => Some(path.as_str()),
        Beside::Image { source, .. } => word_of(source),
    }
}

/// Notes the paths that a job names.
pub fn note_paths(alloc: Global, job: &Job, found: &mut Found) {
    if found.is_wanted {
        found.path = copy_of(alloc, word_of(&job.input.image));
        found.given = copy_of(alloc, word_beside(&job.input.beside));
        found.out = copy_of(alloc, job.output.file());
        found.certificate = copy_of(alloc, job.certificate.as_deref());
        found.folder = copy_of(alloc, job.output.folder());
    }
}

// Whether no way to read the image was chosen.
fn leaves_image_open(stop: Stop) -> bool {
    matches!(
        stop,
        Stop::Refused(
            Refusal::Ambiguous | Refusal::Unknown,
            None | Some(Side::First)
        )
    )
}

// The lines that `identify` tells of an image, behind what its container says of its order, if there is memory for
// them.
fn ways_of(alloc: Global, container: &Option<OpenContainer>, image: Vec<u8>) -> Option<String> {
    let lines = identify_reply(alloc, image).told.text(alloc).ok()?;
    let lines = std::str::from_utf8(lines.as_slice()).ok()?;
    match container {
        Some(container) => {
            let order = order_word(container.says.order);
            format!(in alloc; "2IMG order {order}\n{lines}").ok()
        }
        None => lines.to_string(alloc).ok(),
    }
}

/// Notes in which ways an image may be read that stands in such a container, where none of them was chosen.
pub fn note_ways(
    alloc: Global,
    stop: Stop,
    container: &Option<OpenContainer>,
    image: Vec<u8>,
    found: &mut Found,
) {
    if found.is_wanted && leaves_image_open(stop) {
        found.ways = ways_of(alloc, container, image);
    }
}
