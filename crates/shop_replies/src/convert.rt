// The job that writes the sectors of an image in another order.
ghost use Rattle.std.specs.Prelude.{IfOk, IfErr};
ghost use Rattle.shop_replies.specs.Disk.{OfDisk};
ghost use Rattle.shop_replies.specs.ConvertReply.{IsConvertReply, IsConverted, RefusesConversion};

use crate::disk::open_disk;
use crate::reply::Reply;
use a2_device::Order;
use a2_image::ImageError;

/// The bytes of an image in the wanted order with the sectors of another; in nibble order its tracks have this volume
/// number.
///
/// # Errors
/// `Length` where an image of a disk in its order has not so many bytes, `NoSector` where it lacks a sector, `Memory`.
fn converted(image: Vec<u8>, order: Order, to: Order, volume: u8) -> Result<Vec<u8>, ImageError>
    ensures converted { IfOk result (λ made.
        OfDisk order image.items (λ sectors. IsConverted sectors to volume made.items)) }
    ensures refused { IfErr result (RefusesConversion order image.items) }
{
    let disk = open_disk(image, order)?;
    let made = disk.convert(to, volume)?;
    // Called for what its contract says: the bytes of an image hold its sectors in its order.
    let _order = made.order();
    Ok(made.into_bytes())
}

/// The image in the wanted order, whose tracks have this volume number in nibble order: `Made`, or `Refused` with
/// `Length` or `NoSector`, or `Failed` for want of memory.
pub fn convert_reply(image: Vec<u8>, order: Order, to: Order, volume: u8) -> Reply
    ensures { IsConvertReply order to volume image.items result }
{
    match converted(image, order, to, volume) {
        Ok(made) => Reply::made(made),
        Err(error) => Reply::from(error),
    }
}
