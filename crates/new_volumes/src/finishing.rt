// The image of what was made, checked, and in the order that is asked for.
ghost use Rattle.std.specs.Prelude.{◌≡◌, ◌≢◌, ◌≤◌, ◌*◌, ◌⊎◌, Bool, IfErr, IfOk, [], length};
ghost use Rattle.a2_device.specs.declared.order.Order.TheVariants.{Dos as DosOrder, Nibble, Prodos as ProdosOrder};
ghost use Rattle.a2_image.specs.Image.{HoldsSectors, IsOfDisk};
ghost use Rattle.a2_media.specs.FileDevice.{file_units};
ghost use Rattle.dos_format.specs.Dos.{dos_meaning};
ghost use Rattle.pro_format.specs.Pro.{pro_meaning};
ghost use Rattle.new_volumes.specs.Empty.{IsEmptyVolume};
ghost use Rattle.new_volumes.specs.NewImage.{IsImageOf};
ghost use Rattle.new_volumes.specs.Plain.{IsInOrder};

use crate::NewVolumeError;
use crate::empty::require_empty;
use crate::plain::opened;
use a2_device::Order;
use a2_image::Image;
use a2_media::LentDevice;
use dos_format::Dos33;
use pro_format::Prodos;
use std::alloc::Global;
use vol_layout::Reserved;

// Takes the bytes of a disk in DOS order that has an empty DOS 3.3 volume.
pub(crate) fn empty_disk(
    alloc: Global,
    bytes: Vec<u8>,
    data_disk: bool,
) -> Result<Image, NewVolumeError>
    requires long { length bytes.items ≡ 143360 }
    ensures image { IfOk result (IsImageOf DosOrder bytes.items) }
    ensures disk { IfOk result (λ image. IsOfDisk image) }
    ensures empty { IfOk result (λ _. IsEmptyVolume (dos_meaning data_disk []) (file_units 256 560 bytes.items)) }
    ensures refused { IfErr result (λ e. (e ≡ NewVolumeError.Memory) ⊎ ((e ≡ NewVolumeError.Refused)
        × ¬ IsEmptyVolume (dos_meaning data_disk []) (file_units 256 560 bytes.items))) }
{
    let format = Dos33::new(alloc, data_disk, Reserved::none(alloc))?;
    let image = opened(bytes, Order::Dos)?;
    match require_empty(alloc, &mut LentDevice::dos(&image), &format) {
        Ok(()) => Ok(image),
        Err(error) => Err(error),
    }
}

// Takes the bytes of so many blocks in ProDOS order that have an empty ProDOS volume.
pub(crate) fn empty_blocks(
    alloc: Global,
    bytes: Vec<u8>,
    blocks: u16,
) -> Result<Image, NewVolumeError>
    requires long { length bytes.items ≡ 512 * blocks }
    requires blocks { 16 ≤ blocks }
    ensures image { IfOk result (IsImageOf ProdosOrder bytes.items) }
    ensures empty { IfOk result (λ _. IsEmptyVolume (pro_meaning []) (file_units 512 blocks bytes.items)) }
    ensures refused { IfErr result (λ e. (e ≡ NewVolumeError.Memory) ⊎ ((e ≡ NewVolumeError.Refused)
        × ¬ IsEmptyVolume (pro_meaning []) (file_units 512 blocks bytes.items))) }
{
    let format = Prodos::new(alloc, Reserved::none(alloc));
    let image = opened(bytes, Order::Prodos)?;
    match require_empty(alloc, &mut LentDevice::prodos(&image), &format) {
        Ok(()) => Ok(image),
        Err(error) => Err(error),
    }
}

// The bytes of an image in an order; in nibble order its tracks have this volume number.
pub(crate) fn in_order(image: Image, order: Order, volume: u8) -> Result<Vec<u8>, NewVolumeError>
    requires plain { image.order ≢ Nibble }
    requires disk { order ≢ image.order → IsOfDisk image }
    ensures made { IfOk result (λ bytes. IsInOrder image order volume bytes.items) }
    ensures refused { IfErr result (λ e. e ≡ NewVolumeError.Memory) }
{
    if image.order() == order {
        return Ok(image.into_bytes());
    }
    match image.convert(order, volume) {
        Ok(made) => {
            // Called for what its contract says: the bytes of an image hold its sectors in its order.
            let _order = made.order();
            Ok(made.into_bytes())
        }
        Err(error) => Err(NewVolumeError::from(error)),
    }
}
