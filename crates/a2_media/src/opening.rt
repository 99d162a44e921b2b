// Opening a file in place of an image.
ghost use Rattle.std.specs.Prelude.{◌≡◌, ◌≢◌, ◌↔◌, ◌*◌, ◌+◌, ◌≤◌, IfErr, IfOk, IsErrOf, IsTrue};
ghost use Rattle.a2_media.specs.ImageDevice.{unit_bytes};
ghost use Rattle.a2_device.specs.Order.{IsImageLength};
ghost use Rattle.a2_media.specs.System.{IsDeviceOf, IsInPlace, IsInside, part_state};
ghost use Rattle.a2_media.specs.Window.{image_extent};

use crate::UnitKind;
use crate::file::PositionedFile;
use crate::file_units::FileDevice;
use crate::window::{Extent, Window};
use a2_device::{BLOCK_BYTES, Device, IMAGE_BYTES, Order};
use a2_image::SECTOR_BYTES;
use thiserror::Error;

/// The fewest and the most blocks of an image in ProDOS order.
const FEWEST_BLOCKS: u64 = 16;

const MOST_BLOCKS: u64 = 65_535;

/// Why a file is not opened in place of an image. Of several causes the first in this order is told.
#[derive(Clone, Copy, Debug, Error)]
pub enum FileError {
    /// The units of an image in this order don't stand in its file as they are.
    #[error("the units of the image do not stand in its file as they are")]
    InPlace,
    /// The part in which the image stands is not inside the file; of a file of the system also that it is no regular
    /// one, or a call of the system failed.
    #[error("the file can't be opened")]
    Io,
    /// No image in this order has so many bytes.
    #[error("no image has this length")]
    Length,
}

/// Whether the units of an image in this order stand in its file as they are.
pub fn is_in_place(order: Order, kind: UnitKind) -> bool
    ensures { IsTrue result ↔ IsInPlace order kind }
{
    match order {
        Order::Dos => kind == UnitKind::Sector,
        Order::Prodos => kind == UnitKind::Block,
        Order::Nibble => false,
    }
}

#[tactic(auto, unfolding(a2_device::specs::Order::IsImageLength))]
// How many units an image of so many bytes has, which stand in place.
fn places_in(order: Order, kind: UnitKind, bytes: u64) -> Result<u32, FileError>
    requires in_place { IsInPlace order kind }
    ensures taken { IfOk result (λ places. (unit_bytes kind * places ≡ bytes)
        × IsImageLength order (unit_bytes kind * places)) }
    ensures refused { IfErr result (λ error. (error ≡ FileError.Length) × ¬ IsImageLength order bytes) }
{
    let blocks = bytes / BLOCK_BYTES as u64;
    match order {
        Order::Dos if bytes == IMAGE_BYTES as u64 => Ok((IMAGE_BYTES / SECTOR_BYTES) as u32),
        Order::Prodos
            if bytes % BLOCK_BYTES as u64 == 0 && (FEWEST_BLOCKS..=MOST_BLOCKS).contains(&blocks) =>
            { Ok(blocks as u32) }
        _ => Err(FileError::Length),
    }
}

// Where the image stands in a file of so many bytes: where that is said, if it is inside, or else all of it.
fn extent_in(said: Option<Extent>, bytes: u64) -> Result<Extent, FileError>
    ensures inside { IfOk result (λ extent. extent.start + extent.size ≤ bytes) }
    ensures taken { IfOk result (λ extent. extent ≡ image_extent said bytes) }
    ensures refused { IfErr result (λ error. (error ≡ FileError.Io) × ¬ IsInside said bytes) }
{
    match said {
        None => Ok(Extent {
            start: 0,
            size: bytes,
        }),
        Some(extent) if extent.start <= bytes && extent.size <= bytes - extent.start => Ok(extent),
        Some(_) => Err(FileError::Io),
    }
}

impl<F: PositionedFile + Drop> FileDevice<Window<F>> {
    /// The units of an image's file, or of the part of a file in which an image stands: the sectors of an image in DOS
    /// order, or the blocks of one in ProDOS order. Nothing was written into the file yet. Takes no memory.
    ///
    /// # Errors
    /// Of several the first in this order: `InPlace` for other units; `Io` where the part is not inside the file;
    /// `Length` where no image in this order has its length.
    pub fn of_image(
        file: F,
        part: Option<Extent>,
        order: Order,
        kind: UnitKind,
    ) -> Result<FileDevice<Window<F>>, FileError>
        requires none { (F.state file).standing ≡ 0 }
        ensures opened { IfOk result (λ device. IsDeviceOf order kind (part_state part (F.state file))
            (⟦<FileDevice<Window<F>> as Device>⟧.state device)) }
        ensures window { IfOk result (λ device. (device.file.extent ≡ image_extent part (F.state file).size)
            × (device.file.file ≡ file)) }
        ensures in_place { IsErrOf result FileError.InPlace ↔ (¬ IsInPlace order kind) }
        ensures outside { IsErrOf result FileError.Io → ¬ IsInside part (F.state file).size }
        ensures length { IsErrOf result FileError.Length
            → ¬ IsImageLength order (image_extent part (F.state file).size).size }
    {
        if !is_in_place(order, kind) {
            return Err(FileError::InPlace);
        }
        let extent = extent_in(part, file.size())?;
        let places = places_in(order, kind, extent.size)?;
        Ok(FileDevice::new(Window::new(file, extent), kind, places))
    }
}
