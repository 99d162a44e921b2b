// Looking at the volume of an image.
ghost use Rattle.std.specs.Prelude.{◌≡◌, option_map};
ghost use Rattle.shop_jobs.specs.Job.{look_view};
ghost use Rattle.shop_reads.specs.Extra.{extra_view};
ghost use Rattle.shop_reads.specs.Look.{IsLookReply, shown_by};
ghost use Rattle.shop_reads.specs.ImageLook.{IsImageLook, sided as with_side};
ghost use Rattle.shop_volumes.specs.VolumeReply.{IsVolumeReply};

use crate::extra::Extra;
use crate::looking::look_at_volume;
use shop_jobs::{Look, VolumeOptions};
use shop_replies::{Reply, Side};
use shop_volumes::volume_in;
use std::alloc::Global;

// A comparison says of which of its two images it refuses or fails.
fn sided(look: &Look, reply: Reply) -> Reply
    ensures { result ≡ with_side (look_view look.now) reply }
{
    match look {
        Look::Compare(_) => reply.of_image(Side::First),
        _ => reply,
    }
}

// The same of any look, without the image of which it refuses.
fn volume_look(
    alloc: Global,
    look: &Look,
    extra: Extra,
    image: Vec<u8>,
    options: VolumeOptions,
    reserve: Option<&str>,
) -> Reply
    ensures { IsVolumeReply options (option_map (λ s. s.now) reserve.entry) image.items
        (λ reserved. IsLookReply (look_view look.now) (extra_view extra) (shown_by options reserved)) result }
{
    match volume_in(alloc, image, options, reserve) {
        Ok((mut device, reserved)) => {
            look_at_volume(alloc, look, extra, &mut device, options, reserved)
        }
        Err(reply) => reply,
    }
}

/// What is told of a look at the volume of an image, with what is read beside it. The words may reserve places,
/// as sectors or as blocks.
///
/// `Refused` with `Reserve` where they are no list of places, with `Length` where no image of this order has so many
/// bytes; else what the look tells of the units that the image holds, or `Failed` for want of memory. A comparison says
/// of which of its two images it refuses or fails.
pub fn image_look(
    alloc: Global,
    look: &Look,
    extra: Extra,
    image: Vec<u8>,
    options: VolumeOptions,
    reserve: Option<&str>,
) -> Reply
    ensures { IsImageLook (look_view look.now) (extra_view extra) options (option_map (λ s. s.now) reserve.entry)
        image.items result }
{
    sided(
        look,
        volume_look(alloc, look, extra, image, options, reserve),
    )
}
