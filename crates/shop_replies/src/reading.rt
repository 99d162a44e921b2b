// Bytes, read from readers that may fail.
ghost use Rattle.std.specs.Prelude.{◌≡◌, ◌+◌, IfErr, IfOk, IfSome, take};
ghost use Rattle.shop_jobs.specs.Input.{beside_view, reading_view};
ghost use Rattle.shop_replies.specs.Reading.{
  IsReadFailure,
  most_beside,
  most_in_order as most_in,
  most_of_image,
};

use crate::disk::most_bytes;
use crate::refusal::Failure;
use disk_container::MOST_BYTES;
use shop_jobs::{Beside, ImageReading, OrderSaid};
use std::alloc::Global;
use std::io::{ErrorKind, Read};

/// The most bytes that a certificate and a file that is saved may have.
const MOST_GIVEN: u32 = 16_777_216;

// The most bytes that are taken of an image in an order: where that is to be found, as the image may stand in a
// container, those of one.
fn most_in_order(order: OrderSaid) -> u32
    ensures { result ≡ most_in order }
{
    match order {
        OrderSaid::Is(order) => most_bytes(order) as u32,
        OrderSaid::ByReading | OrderSaid::ByContainer => MOST_BYTES as u32,
    }
}

/// The most bytes that are taken of an image that is read so: those of its order, or of a container where that is not
/// known.
pub fn most_of_image(reading: &ImageReading) -> u32
    ensures { result ≡ most_of_image (reading_view reading.now) }
{
    match reading.order() {
        Some(order) => most_in_order(order),
        None => MOST_BYTES as u32,
    }
}

/// The most bytes that are taken of what is read beside an image: of another image those of its order, or of a
/// container where that is not known.
pub fn most_beside(beside: &Beside) -> u32
    ensures { result ≡ most_beside (beside_view beside.now) }
{
    match beside {
        Beside::Image { order, .. } => most_in_order(*order),
        Beside::Nothing | Beside::File(_) | Beside::Folder(_) => MOST_GIVEN,
    }
}

/// Reads up to one byte past so many.
///
/// # Errors
/// `Input` where the reader fails, `Memory` where there is no room for the bytes.
pub fn read_front<R: Read>(alloc: Global, reader: &mut R, most: u32) -> Result<Vec<u8>, Failure>
    ensures read { IfSome (R.remaining reader.old) (λ bytes. IfOk result (λ read. read.items ≡ take (most + 1) bytes)) }
    ensures failed { IfErr result IsReadFailure }
{
    let mut bytes = Vec::new(alloc);
    match reader.take(u64::from(most) + 1).read_to_end(&mut bytes) {
        Ok(_) => Ok(bytes),
        Err(error) if error.kind() == ErrorKind::OutOfMemory => Err(Failure::Memory),
        Err(_) => Err(Failure::Input),
    }
}
