// What is found of the image in a file.
ghost use Rattle.std.specs.Prelude.{◌≡◌, IfOk, length};
ghost use Rattle.disk_container.specs.Format.{BeginsLikeContainer};
ghost use Rattle.a2_image.specs.Image.{IsOfDisk};
ghost use Rattle.image_readings.specs.Readings.{plain_meaning};
ghost use Rattle.shop_replies.specs.Volume.{TakesBytes, device_of as device_by, form_of};
ghost use Rattle.image_survey.specs.Facts.{AreFacts};
ghost use Rattle.image_survey.specs.Surveyed.{
  IsBest,
  IsImageVerdict,
  IsSurveyed,
  agrees as agrees_with,
  files_of,
  is_image_length as has_image_length,
  is_order as is_order_of,
};

use crate::disk::disk_digest;
use crate::facts::{VolumeFacts, facts_on};
use crate::surveyed::{BestReading, ImageFile, ImageVerdict, Surveyed};
use a2_device::{BLOCK_BYTES, Order};
use a2_image::{Image, ImageError};
use disk_container::{begins_like_container, container_of, keep_payload};
use dos_format::Dos33;
use image_readings::{Choice, best_reading};
use pro_format::Prodos;
use sha2::{Digest, Sha256};
use shop_jobs::FileSystem;
use shop_replies::{device_of, open_volume};
use std::alloc::{AllocError, Global};
use vol_layout::{PlaceForm, Reserved};

/// The fewest and the most blocks of an image.
const FEWEST_BLOCKS: usize = 16;

const MOST_BLOCKS: usize = 65_535;

// Whether an image has so many bytes.
fn is_image_length(bytes: usize) -> bool
    ensures { result ≡ has_image_length bytes }
{
    bytes % BLOCK_BYTES == 0
        && bytes >= FEWEST_BLOCKS * BLOCK_BYTES
        && bytes <= MOST_BLOCKS * BLOCK_BYTES
}

// Whether the header of a container says an order.
fn is_order(said: Order, order: Order) -> bool
    ensures { result ≡ is_order_of said order }
{
    match said {
        Order::Dos => order == Order::Dos,
        Order::Prodos => order == Order::Prodos,
        Order::Nibble => order == Order::Nibble,
    }
}

// Whether what the header of a container says, where there is one, is this order.
fn agrees(said: Option<Order>, order: Order) -> bool
    ensures { result ≡ agrees_with said order }
{
    match said {
        Some(said) => is_order(said, order),
        None => true,
    }
}

// What is told of the volume that an image has.
fn facts_in(alloc: Global, image: Image, file_system: FileSystem) -> Result<VolumeFacts, AllocError>
    requires { file_system ≡ FileSystem.Dos → IsOfDisk image }
    ensures { IfOk result (AreFacts (form_of file_system) (files_of file_system) (plain_meaning file_system)
        (device_by file_system image)) }
{
    let mut device = device_of(image, file_system);
    match file_system {
        FileSystem::Dos => {
            let format = Dos33::new(alloc, false, Reserved::none(alloc))?;
            facts_on(alloc, &mut device, &format, PlaceForm::Sector)
        }
        FileSystem::Prodos => {
            let format = Prodos::new(alloc, Reserved::none(alloc));
            facts_on(alloc, &mut device, &format, PlaceForm::Block)
        }
    }
}

// What is told of an image in the best way to read it.
fn best_of(
    alloc: Global,
    image: Vec<u8>,
    file_system: FileSystem,
    order: Order,
) -> Result<BestReading, AllocError>
    requires { TakesBytes file_system order (length image.items) }
    ensures { IfOk result (IsBest image.items file_system order) }
{
    let image = match open_volume(image, order, file_system) {
        Ok(image) => image,
        Err(ImageError::Memory) => return Err(AllocError),
        Err(_) => unreachable!(),
    };
    let disk = disk_digest(&image);
    let facts = facts_in(alloc, image, file_system)?;
    Ok(BestReading {
        file_system,
        order,
        facts,
        disk,
    })
}

// What is found of an image, in a container whose header says an order or in none.
fn verdict_on(
    alloc: Global,
    mut image: Vec<u8>,
    said: Option<Order>,
) -> Result<ImageVerdict, AllocError>
    ensures { IfOk result (IsImageVerdict image.items said) }
{
    match best_reading(alloc, &mut image, None, None)? {
        Choice::Way { file_system, order } if agrees(said, order) => {
            let best = best_of(alloc, image, file_system, order)?;
            Ok(ImageVerdict::Best(best))
        }
        Choice::Way { .. } | Choice::Ambiguous => Ok(ImageVerdict::Ambiguous),
        Choice::Unknown => Ok(ImageVerdict::NoVolume),
    }
}

// What is found of a file that is no container.
fn survey_plain(alloc: Global, bytes: Vec<u8>) -> Result<Surveyed, AllocError>
    requires { ¬ BeginsLikeContainer bytes.items }
    ensures { IfOk result (IsSurveyed bytes.items) }
{
    if !is_image_length(bytes.len()) {
        return Ok(Surveyed::Other);
    }
    let sha256 = Sha256::digest(bytes.as_slice());
    let verdict = verdict_on(alloc, bytes, None)?;
    Ok(Surveyed::Image(ImageFile {
        sha256,
        container: false,
        verdict,
    }))
}

// What is found of a file that begins as a container does.
fn survey_container(alloc: Global, mut bytes: Vec<u8>) -> Result<Surveyed, AllocError>
    requires { BeginsLikeContainer bytes.items }
    ensures { IfOk result (IsSurveyed bytes.items) }
{
    let Ok(container) = container_of(bytes.as_slice()) else {
        return Ok(Surveyed::Other);
    };
    let sha256 = Sha256::digest(bytes.as_slice());
    keep_payload(&mut bytes, container);
    let verdict = verdict_on(alloc, bytes, Some(container.order))?;
    Ok(Surveyed::Image(ImageFile {
        sha256,
        container: true,
        verdict,
    }))
}

/// What is found of the bytes of a file: of a container that of its payload, and the digest of the whole. It is never
/// `Unread`.
///
/// # Errors
/// Want of memory.
pub fn survey_image(alloc: Global, bytes: Vec<u8>) -> Result<Surveyed, AllocError>
    ensures { IfOk result (IsSurveyed bytes.items) }
{
    if begins_like_container(bytes.as_slice()) {
        survey_container(alloc, bytes)
    } else {
        survey_plain(alloc, bytes)
    }
}
