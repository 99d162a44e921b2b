// The best way to read an image, of those that are asked for.
ghost use Rattle.std.specs.Prelude.{◌≡◌, IfOk};
ghost use Rattle.image_readings.specs.Ranking.{IsVerdict};
ghost use Rattle.image_readings.specs.BestReading.{
  IsChoice,
  choice_of as choice_for,
  has_file_system,
  has_given,
  has_order,
  ways_given as ways_asked,
};

use crate::identify::{WAYS, readings_of};
use crate::ranking::{Verdict, rank};
use crate::reading::Reading;
use a2_device::Order;
use shop_jobs::FileSystem;
use std::alloc::{AllocError, Global};

/// How an image is to be read, where a file system, an order or both are left open.
#[derive(Clone, Copy)]
pub enum Choice {
    /// The reading in this way beats every other.
    Way {
        file_system: FileSystem,
        order: Order,
    },
    /// Some volume can be read, and no reading beats every other.
    Ambiguous,
    /// No volume can be read, or the image's length allows no way to read it.
    Unknown,
}

// Whether a file system is the given one, where one is given.
fn is_file_system(given: Option<FileSystem>, file_system: FileSystem) -> bool
    ensures { result ≡ has_file_system given file_system }
{
    match given {
        Some(given) => given == file_system,
        None => true,
    }
}

// Whether an order is the given one, where one is given.
fn is_order(given: Option<Order>, order: Order) -> bool
    ensures { result ≡ has_order given order }
{
    match given {
        Some(given) => given == order,
        None => true,
    }
}

// Whether a way has the file system and the order that are given.
fn is_given(file_system: Option<FileSystem>, order: Option<Order>, way: (FileSystem, Order)) -> bool
    ensures { result ≡ has_given file_system order way }
{
    is_file_system(file_system, way.0) && is_order(order, way.1)
}

// The ways to read an image that have the file system and the order that are given.
fn ways_given(
    alloc: Global,
    file_system: Option<FileSystem>,
    order: Option<Order>,
) -> Result<Vec<(FileSystem, Order)>, AllocError>
    ensures { IfOk result (λ ways. ways.items ≡ ways_asked file_system order) }
{
    WAYS.iter()
        .copied()
        .filter(|way| is_given(file_system, order, *way))
        .collect(alloc)
}

// What the verdict on readings chooses.
fn choice_of(readings: &[Reading], verdict: Verdict) -> Choice
    requires { IsVerdict readings.now verdict }
    ensures { result ≡ choice_for readings.now verdict }
{
    match verdict {
        Verdict::Best(number) => {
            let best = readings[number];
            Choice::Way {
                file_system: best.file_system,
                order: best.order,
            }
        }
        Verdict::Ambiguous => Choice::Ambiguous,
        Verdict::NoVolume => Choice::Unknown,
    }
}

/// The best way to read an image in the file system and the order that are given; `None` leaves one open. The image is
/// read without a copy of its bytes, which are then as they were.
///
/// # Errors
/// Want of memory.
pub fn best_reading(
    alloc: Global,
    image: &mut Vec<u8>,
    file_system: Option<FileSystem>,
    order: Option<Order>,
) -> Result<Choice, AllocError>
    ensures same { image.new.items ≡ image.old.items }
    ensures choice { IfOk result (IsChoice file_system order image.old.items) }
{
    let ways = ways_given(alloc, file_system, order)?;
    let readings = readings_of(alloc, image, ways.as_slice())?;
    let verdict = rank(readings.as_slice());
    Ok(choice_of(readings.as_slice(), verdict))
}
