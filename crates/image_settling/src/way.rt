// In which file system and order an image is read.
ghost use Rattle.std.specs.Prelude.{◌≡◌, ◌↔◌, IfErr, IfOk, IsTrue};
ghost use Rattle.shop_jobs.specs.Input.{reading_view};
ghost use Rattle.image_settling.specs.FoundWay.{
  Agrees,
  IsBestWay,
  IsFoundIn,
  IsFoundOrder,
  IsFoundWay,
  RefusesChoice,
  RefusesIn,
  RefusesOrder,
  RefusesWay,
  order_given as given_order,
};

use crate::unsettled::Unsettled;
use a2_device::Order;
use disk_container::Container;
use image_readings::{Choice, best_reading};
use shop_jobs::{FileSystem, ImageReading, OrderSaid};
use shop_replies::Refusal;
use std::alloc::Global;

// The order that is said, or that the container says where it is left to that.
fn order_given(order: OrderSaid, container: Option<Container>) -> Option<Order>
    ensures { result ≡ given_order order container }
{
    match (order, container) {
        (OrderSaid::Is(order), _) => Some(order),
        (OrderSaid::ByContainer, Some(container)) => Some(container.order),
        (OrderSaid::ByContainer, None) | (OrderSaid::ByReading, _) => None,
    }
}

// Whether an order is that which the container says, if there is one.
fn agrees(container: Option<Container>, order: Order) -> bool
    ensures { IsTrue result ↔ Agrees container order }
{
    match container {
        Some(container) => container.order == order,
        None => true,
    }
}

// The best way to read an image, of those that have what is given; of one in a container the best reading of all is to
// be in the order that this says, or a wrong header would go unseen.
fn best_way(
    alloc: Global,
    file_system: Option<FileSystem>,
    order: Option<Order>,
    container: Option<Container>,
    image: &mut Vec<u8>,
) -> Result<(FileSystem, Order), Unsettled>
    ensures same { image.new.items ≡ image.old.items }
    ensures way { IfOk result (IsBestWay file_system order container image.old.items) }
    ensures refused { IfErr result (RefusesChoice file_system order container image.old.items) }
{
    match best_reading(alloc, image, file_system, order)? {
        Choice::Way { file_system, order } if agrees(container, order) => Ok((file_system, order)),
        Choice::Way { .. } | Choice::Ambiguous => Err(Unsettled::Refused(Refusal::Ambiguous)),
        Choice::Unknown => Err(Unsettled::Refused(Refusal::Unknown)),
    }
}

// The way of an image whose file system and order are given or are to be found.
fn way_in(
    alloc: Global,
    file_system: Option<FileSystem>,
    order: Option<Order>,
    container: Option<Container>,
    image: &mut Vec<u8>,
) -> Result<(FileSystem, Order), Unsettled>
    ensures same { image.new.items ≡ image.old.items }
    ensures way { IfOk result (IsFoundIn file_system order container image.old.items) }
    ensures refused { IfErr result (RefusesIn file_system order container image.old.items) }
{
    match (file_system, order) {
        (Some(file_system), Some(order)) => Ok((file_system, order)),
        _ => best_way(alloc, file_system, order, container, image),
    }
}

// The order of an image, whose volume has this file system, if one is given.
fn order_in(
    alloc: Global,
    order: OrderSaid,
    file_system: Option<FileSystem>,
    container: Option<Container>,
    image: &mut Vec<u8>,
) -> Result<Order, Unsettled>
    ensures same { image.new.items ≡ image.old.items }
    ensures order { IfOk result (IsFoundOrder file_system (given_order order container) container image.old.items) }
    ensures refused { IfErr result (RefusesOrder file_system (given_order order container) container image.old.items) }
{
    match order_given(order, container) {
        Some(order) => Ok(order),
        None => Ok(best_way(alloc, file_system, None, container, image)?.1),
    }
}

/// The file system and the order in which an image is read. What is said of them is so; a file system that is not asked
/// for is any. The image is read without a copy of its bytes, which are then as they were.
///
/// # Errors
/// `Refused` with `Ambiguous` where no reading that has what is said beats every other, or where the best is in another
/// order than the image's container says, with `Unknown` where there is no volume in it; `Memory` for want of memory.
pub fn found_way(
    alloc: Global,
    reading: &ImageReading,
    image: &mut Vec<u8>,
    container: Option<Container>,
) -> Result<(FileSystem, Order), Unsettled>
    ensures same { image.new.items ≡ image.old.items }
    ensures way { IfOk result (IsFoundWay (reading_view reading.now) container image.old.items) }
    ensures refused { IfErr result (RefusesWay (reading_view reading.now) container image.old.items) }
{
    match reading {
        ImageReading::Bytes => Ok((FileSystem::Dos, Order::Dos)),
        ImageReading::Sectors(order) => {
            let order = order_in(alloc, *order, None, container, image)?;
            Ok((FileSystem::Dos, order))
        }
        ImageReading::Volume(volume) => {
            let order = order_given(volume.order, container);
            way_in(alloc, volume.file_system, order, container, image)
        }
    }
}

/// The order of another image, whose volume has this file system. Its bytes are then as they were.
///
/// # Errors
/// Those of `found_way`.
pub fn found_order(
    alloc: Global,
    order: OrderSaid,
    file_system: FileSystem,
    other: &mut Vec<u8>,
    container: Option<Container>,
) -> Result<Order, Unsettled>
    ensures same { other.new.items ≡ other.old.items }
    ensures order { IfOk result (IsFoundOrder (Some file_system) (given_order order container) container
        other.old.items) }
    ensures refused { IfErr result (RefusesOrder (Some file_system) (given_order order container) container
        other.old.items) }
{
    order_in(alloc, order, Some(file_system), container, other)
}
