// Taking the bytes of an image, and the device of its volume.
ghost use Rattle.std.specs.Prelude.{◌≡◌, IfErr, IfOk, length};
ghost use Rattle.a2_image.specs.Image.{IsOfDisk};
ghost use Rattle.shop_jobs.specs.declared.input.FileSystem.TheVariants.{Dos as OfDos};
ghost use Rattle.shop_replies.specs.Volume.{
  HasUnitsOf,
  IsImageOf,
  RefusesBytes,
  TakesBytes,
  device_of as device_by,
  form_of as form_by,
};

use crate::open_disk;
use a2_device::{Device, Order};
use a2_image::{Image, ImageError};
use a2_media::ImageDevice;
use shop_jobs::FileSystem;
use vol_layout::PlaceForm;

/// How the places of a file system are named.
pub fn form_of(file_system: FileSystem) -> PlaceForm
    ensures { result ≡ form_by file_system }
{
    match file_system {
        FileSystem::Dos => PlaceForm::Sector,
        FileSystem::Prodos => PlaceForm::Block,
    }
}

/// Takes the bytes of an image that has a volume of a file system.
///
/// # Errors
/// `Length` where no such image in this order has so many bytes; `Memory` in nibble order alone.
pub fn open_volume(
    bytes: Vec<u8>,
    order: Order,
    file_system: FileSystem,
) -> Result<Image, ImageError>
    ensures takes { IfOk result (λ image. TakesBytes file_system order (length bytes.items)) }
    ensures image { IfOk result (λ image. IsImageOf order bytes.items image) }
    ensures disk { IfOk result (λ image. file_system ≡ OfDos → IsOfDisk image) }
    ensures refused { IfErr result (RefusesBytes file_system order (length bytes.items)) }
{
    if file_system == FileSystem::Dos {
        return open_disk(bytes, order);
    }
    match Image::open(bytes, order) {
        Ok(image) => Ok(image),
        Err((error, _)) => Err(error),
    }
}

/// The device of the units that an image has for a file system.
pub fn device_of(image: Image, file_system: FileSystem) -> ImageDevice
    requires { file_system ≡ OfDos → IsOfDisk image }
    ensures device { ⟦<ImageDevice as Device>⟧.state result ≡ device_by file_system image }
    ensures units { HasUnitsOf file_system (⟦<ImageDevice as Device>⟧.state result) }
{
    // Called for what its contract says: an image has 16 to 65,535 blocks.
    let _blocks = image.blocks();
    match file_system {
        FileSystem::Dos => ImageDevice::dos(image),
        FileSystem::Prodos => ImageDevice::prodos(image),
    }
}
