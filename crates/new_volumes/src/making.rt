// The image of an empty volume.
ghost use Rattle.std.specs.Prelude.{◌≡◌, ◌≤◌, ◌↔◌, IfErr, IfOk, IsTrue, length, option_map};
ghost use Rattle.new_volumes.specs.NewImage.{IsNewImage, RefusesNew};
ghost use Rattle.new_volumes.specs.Wanted.{TakesBoot, HasBlocks, IsNamed, NewDos, NewPro, wanted};

use crate::finishing::{empty_blocks, empty_disk, in_order};
use crate::plain::{block_bytes, disk_bytes};
use crate::{NewVolume, NewVolumeError};
use a2_device::{DISK_BLOCKS, Order};
use a2_media::UnitKind;
use pro_dir::ProDate;
use std::alloc::Global;

/// The fewest blocks of an image in ProDOS order.
const FEWEST_BLOCKS: u16 = 16;

/// The image of an empty volume in an order, in nibble order with tracks of this volume number. Tracks 0 to 2, or
/// blocks 0 and 1, are those of `boot`, an image in the same order, where one is given, and else 00s; nothing else of
/// it is copied. Takes one block of memory for the image, one more for the image in another order, and what opening
/// `boot` and the checker take.
///
/// # Errors
/// `Length` where no image in this order has so many blocks: other than 280 in DOS and nibble order, fewer than 16 in
/// ProDOS order. Else `BootLength` where `boot` is no image in this order, or for DOS 3.3 not that of a disk. Else
/// `NoSector` where it lacks a sector that is copied, `Memory`, and `Refused` where what was made is no empty volume:
/// the checker has the last word, and the tests never meet it.
pub fn new_image(
    alloc: Global,
    new: NewVolume<'_>,
    order: Order,
    volume: u8,
    boot: Option<Vec<u8>>,
) -> Result<Vec<u8>, NewVolumeError>
    requires name { IsNamed (wanted new) }
    ensures made { IfOk result (λ image.
        IsNewImage (wanted new.entry) order volume (option_map (λ b. b.items) boot) image.items) }
    ensures refused { IfErr result (RefusesNew (wanted new.entry) order (option_map (λ b. b.items) boot)) }
{
    match new {
        NewVolume::Dos {
            volume: number,
            data_disk,
        } => new_disk(alloc, number, data_disk, order, volume, boot),
        NewVolume::Prodos { blocks, name, date } => {
            new_blocks(alloc, blocks, name, date, order, volume, boot)
        }
    }
}

// Whether the image that is copied from, if one is given, has units of a kind.
fn takes_boot(boot: &Option<Vec<u8>>, order: Order, kind: UnitKind) -> bool
    ensures { IsTrue result ↔ TakesBoot kind order (option_map (λ b. b.items) boot.now) }
{
    match boot {
        Some(bytes) => {
            order.takes(bytes.len())
                && (kind == UnitKind::Block || order.blocks(bytes.len()) == DISK_BLOCKS)
        }
        None => true,
    }
}

// Whether an image in an order can have so many blocks.
fn has_blocks(order: Order, blocks: u16) -> bool
    ensures { IsTrue result ↔ HasBlocks order blocks }
{
    match order {
        Order::Prodos => FEWEST_BLOCKS <= blocks,
        Order::Dos | Order::Nibble => u32::from(blocks) == DISK_BLOCKS,
    }
}

// The image of an empty DOS 3.3 disk.
fn new_disk(
    alloc: Global,
    number: u8,
    data_disk: bool,
    order: Order,
    volume: u8,
    boot: Option<Vec<u8>>,
) -> Result<Vec<u8>, NewVolumeError>
    ensures made { IfOk result (λ image.
        IsNewImage (NewDos number data_disk) order volume (option_map (λ b. b.items) boot) image.items) }
    ensures refused { IfErr result (RefusesNew (NewDos number data_disk) order (option_map (λ b. b.items) boot)) }
{
    if !takes_boot(&boot, order, UnitKind::Sector) {
        return Err(NewVolumeError::BootLength);
    }
    let bytes = disk_bytes(alloc, number, data_disk, order, boot)?;
    let image = empty_disk(alloc, bytes, data_disk)?;
    in_order(image, order, volume)
}

// The image of an empty ProDOS volume.
fn new_blocks(
    alloc: Global,
    blocks: u16,
    name: &[u8],
    date: ProDate,
    order: Order,
    volume: u8,
    boot: Option<Vec<u8>>,
) -> Result<Vec<u8>, NewVolumeError>
    requires name { length name.now ≤ 15 }
    ensures made { IfOk result (λ image.
        IsNewImage (NewPro blocks name.now date.0) order volume (option_map (λ b. b.items) boot) image.items) }
    ensures refused { IfErr result (RefusesNew (NewPro blocks name.now date.0) order (option_map (λ b. b.items) boot)) }
{
    if !has_blocks(order, blocks) {
        return Err(NewVolumeError::Length);
    }
    if !takes_boot(&boot, order, UnitKind::Block) {
        return Err(NewVolumeError::BootLength);
    }
    let bytes = block_bytes(alloc, blocks, name, date, order, boot)?;
    let image = empty_blocks(alloc, bytes, blocks)?;
    in_order(image, order, volume)
}
