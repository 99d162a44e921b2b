// The volume of an image, as a device.
ghost use Rattle.std.specs.Prelude.{◌≡◌, IfErr, IfOk, option_map};
ghost use Rattle.shop_volumes.specs.VolumeReply.{IsUntaken, IsVolumeIn};

use crate::{reserve_reply, reserved_by};
use a2_device::Device;
use a2_media::ImageDevice;
use shop_jobs::VolumeOptions;
use shop_replies::{Reply, device_of, form_of, open_volume};
use std::alloc::Global;
use vol_layout::Reserved;

/// The device of the volume in an image, and the places that the words reserve there, as sectors or as blocks.
///
/// # Errors
/// The reply: `Refused` with `Reserve` where the words are no list of places, with `Length` where no image of this
/// order has so many bytes, or `Failed` for want of memory.
pub fn volume_in(
    alloc: Global,
    image: Vec<u8>,
    options: VolumeOptions,
    reserve: Option<&str>,
) -> Result<(ImageDevice, Reserved), Reply>
    ensures volume { IfOk result (λ volume. IsVolumeIn options (option_map (λ s. s.now) reserve.entry) image.items
        (⟦<ImageDevice as Device>⟧.state volume.0) volume.1) }
    ensures untaken { IfErr result (IsUntaken options (option_map (λ s. s.now) reserve.entry) image.items) }
{
    let reserved = match reserved_by(alloc, form_of(options.file_system), reserve) {
        Ok(reserved) => reserved,
        Err(error) => return Err(reserve_reply(error)),
    };
    let image = match open_volume(image, options.order, options.file_system) {
        Ok(image) => image,
        Err(error) => return Err(Reply::from(error)),
    };
    Ok((device_of(image, options.file_system), reserved))
}
