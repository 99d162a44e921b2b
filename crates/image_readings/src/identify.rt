// The job that tells how an image can be read.
ghost use Rattle.std.specs.Prelude.{◌≡◌, ◌++◌, OnOk, IfOk, filter, length, string_bytes, true};
ghost use Rattle.disk_container.specs.Container.{IsContainer, payload_in};
ghost use Rattle.image_readings.specs.Adding.{Adds};
ghost use Rattle.image_readings.specs.IdentifyReply.{
  AreReadingsIn,
  IsIdentifyReply,
  IsImageReply,
  TellsRanked,
  allows,
  way_of,
};
ghost use Rattle.image_readings.specs.IdentifyText.{
  container_text as text_of_container,
  identify_text as text_of_all,
};
ghost use Rattle.image_readings.specs.Ranking.{IsVerdict};
ghost use Rattle.image_readings.specs.Readings.{IsReadingOf};

use crate::identify_text::{container_text, identify_text};
use crate::ranking::{Verdict, rank};
use crate::reading::Reading;
use crate::volume::reading_of;
use a2_device::{BLOCK_BYTES, IMAGE_BYTES, NIBBLE_BYTES, Order};
use a2_image::{Image, ImageError};
use disk_container::{Container, begins_like_container, container_of, keep_payload};
use shop_jobs::FileSystem;
use shop_replies::{Failure, Refusal, Reply};
use std::alloc::{AllocError, Global};
use std::mem;

/// The fewest and the most blocks of an image in ProDOS order.
const FEWEST_BLOCKS: usize = 16;

const MOST_BLOCKS: usize = 65_535;

/// The ways to read an image, in the order in which they are told.
pub const WAYS: [(FileSystem, Order); 6] = [
    (FileSystem::Dos, Order::Dos),
    (FileSystem::Dos, Order::Prodos),
    (FileSystem::Dos, Order::Nibble),
    (FileSystem::Prodos, Order::Dos),
    (FileSystem::Prodos, Order::Prodos),
    (FileSystem::Prodos, Order::Nibble),
];

// Whether an image of so many bytes may be read in this way.
fn is_allowed(bytes: usize, way: (FileSystem, Order)) -> bool
    ensures { result ≡ allows bytes way }
{
    match way {
        (FileSystem::Prodos, Order::Prodos) => {
            bytes % BLOCK_BYTES == 0
                && bytes >= FEWEST_BLOCKS * BLOCK_BYTES
                && bytes <= MOST_BLOCKS * BLOCK_BYTES
        }
        (_, Order::Nibble) => bytes == NIBBLE_BYTES,
        _ => bytes == IMAGE_BYTES,
    }
}

// The ways of these in which an image of so many bytes may be read.
fn allowed_ways(
    alloc: Global,
    bytes: usize,
    ways: &[(FileSystem, Order)],
) -> Result<Vec<(FileSystem, Order)>, AllocError>
    ensures { IfOk result (λ allowed. allowed.items ≡ filter (allows bytes) ways.now) }
{
    ways.iter()
        .copied()
        .filter(|way| is_allowed(bytes, *way))
        .collect(alloc)
}

// Reads an image in one way. Its bytes are the image's for as long as it is read, and come back.
fn reading_in(
    alloc: Global,
    image: &mut Vec<u8>,
    way: (FileSystem, Order),
) -> Result<Reading, AllocError>
    requires { allows (length image.old.items) way ≡ true }
    ensures same { image.new.items ≡ image.old.items }
    ensures reading { IfOk result (λ reading. way_of reading ≡ way) }
    ensures found { IfOk result (IsReadingOf image.old.items) }
{
    let bytes = mem::replace(image, Vec::new(alloc));
    match Image::open(bytes, way.1) {
        Ok(opened) => {
            let reading = reading_of(alloc, &opened, way.0);
            *image = opened.into_bytes();
            reading
        }
        Err((error, bytes)) => {
            *image = bytes;
            match error {
                ImageError::Memory => Err(AllocError),
                _ => unreachable!(),
            }
        }
    }
}

// Reads an image in one more way.
fn add_reading(
    alloc: Global,
    image: &mut Vec<u8>,
    way: (FileSystem, Order),
    readings: &mut Vec<Reading>,
) -> Result<(), AllocError>
    requires { allows (length image.old.items) way ≡ true }
    ensures same { image.new.items ≡ image.old.items }
    ensures added { OnOk result (Adds image.old.items way readings.old.items readings.new.items) }
{
    let reading = reading_in(alloc, image, way)?;
    readings.push(reading)?;
    Ok(())
}

/// The readings of an image, one in each of these ways that its length allows. The image is read without a copy of its
/// bytes, which are then as they were.
///
/// # Errors
/// Want of memory.
pub fn readings_of(
    alloc: Global,
    image: &mut Vec<u8>,
    ways: &[(FileSystem, Order)],
) -> Result<Vec<Reading>, AllocError>
    ensures same { image.new.items ≡ image.old.items }
    ensures readings { IfOk result (λ readings. AreReadingsIn ways.now image.old.items readings.items) }
{
    let allowed = allowed_ways(alloc, image.len(), ways)?;
    let mut readings = Vec::new(alloc);
    for &way in allowed.as_slice() {
        add_reading(alloc, image, way, &mut readings)?;
    }
    Ok(readings)
}

// The text of the readings and the verdict, behind another.
fn text_behind(
    alloc: Global,
    head: &str,
    readings: &[Reading],
    verdict: Verdict,
) -> Result<String, AllocError>
    requires { IsVerdict readings.now verdict }
    ensures { IfOk result (λ text. string_bytes text ≡ head.now ++ text_of_all readings.now verdict) }
{
    let text = identify_text(alloc, readings, verdict)?;
    format!(in alloc; "{head}{text}")
}

// The reply with the readings of an image and the verdict, behind a text.
fn ranked_reply(alloc: Global, head: &str, readings: &[Reading]) -> Reply
    ensures { TellsRanked head.now readings.now result }
{
    let verdict = rank(readings);
    match (text_behind(alloc, head, readings, verdict), verdict) {
        (Ok(text), Verdict::Best(_)) => Reply::done(text),
        (Ok(text), _) => Reply::wrong(text),
        (Err(_), _) => Reply::failed(Failure::Memory),
    }
}

// The readings of an image in each way that its length allows, and which of them is best, behind a text.
fn image_reply(alloc: Global, head: &str, mut image: Vec<u8>) -> Reply
    ensures { IsImageReply head.now image.items result }
{
    match readings_of(alloc, &mut image, &WAYS) {
        Ok(readings) if readings.is_empty() => Reply::refused(Refusal::Length),
        Ok(readings) => ranked_reply(alloc, head, readings.as_slice()),
        Err(_) => Reply::failed(Failure::Memory),
    }
}

// The same of the payload of a container, behind what the container says.
fn payload_reply(alloc: Global, mut file: Vec<u8>, container: Container) -> Reply
    requires { IsContainer file.items container }
    ensures { IsImageReply (text_of_container container) (payload_in file.items container) result }
{
    match container_text(alloc, container) {
        Ok(head) => {
            keep_payload(&mut file, container);
            image_reply(alloc, head.as_str(), file)
        }
        Err(_) => Reply::failed(Failure::Memory),
    }
}

/// The readings of an image in each way that its length allows, and which of them is best; of a container what it says,
/// and the readings of its payload.
///
/// `Done` where one is best, else `Faulty`; `Refused` with `Length` where the length allows none, with `Container`
/// where the file begins like a container and is none; `Failed` for want of memory.
pub fn identify_reply(alloc: Global, file: Vec<u8>) -> Reply
    ensures { IsIdentifyReply file.items result }
{
    if !begins_like_container(file.as_slice()) {
        return image_reply(alloc, "", file);
    }
    match container_of(file.as_slice()) {
        Ok(container) => payload_reply(alloc, file, container),
        Err(fault) => Reply::refused(Refusal::Container(fault)),
    }
}
