// Looking at the volume of a device.
ghost use Rattle.std.specs.Prelude.{◌≡◌, ◌⊎◌, IsTrue, option_map};
ghost use Rattle.shop_jobs.specs.Job.{look_view};
ghost use Rattle.shop_replies.specs.declared.refusal.Failure.TheVariants.{Memory as OfMemory};
ghost use Rattle.shop_replies.specs.Reply.{failed};
ghost use Rattle.shop_replies.specs.Volume.{HasUnitsOf};
ghost use Rattle.shop_reads.specs.Extra.{extra_view};
ghost use Rattle.shop_reads.specs.GoingOn.{FailsForLackIn, HasNotFailed, ReadsFor};
ghost use Rattle.shop_reads.specs.Look.{IsLookReply, shown_by};
ghost use Rattle.shop_volumes.specs.Reserving.{IsDeviceReply};
ghost use Rattle.vol_format.specs.Fits.{Fits};

use crate::bodies::bodies_reply;
use crate::check::check_reply;
use crate::compare::compare_beside;
use crate::entries::entries_reply;
use crate::extra::Extra;
use crate::listing::{ShownFormat, listing_reply};
use crate::map::map_reply;
use crate::naming::file_name;
use crate::plan::plan_reply;
use crate::plan_words::plan_words_reply;
use crate::reading::read_reply;
use crate::verify::verify_reply;
use a2_device::Device;
use shop_jobs::{Look, VolumeOptions};
use shop_replies::{Failure, Reply, form_of};
use shop_volumes::{VolumeFormat, format_of, reserve_reply, reserved_by};
use std::alloc::Global;
use vol_layout::Reserved;

/// What is told of a look at the volume of a device, by its format, with what is read beside it. Each failure of
/// the device is told, and nothing else is told as one; a list goes on behind a file that can't be read, and a check of
/// bodies behind a unit.
pub fn look_reply<D: Device, F: ShownFormat>(
    alloc: Global,
    look: &Look,
    extra: Extra,
    device: &mut D,
    format: &F,
) -> Reply
    requires fits { Fits (F.meaning format.now) (D.state device.old) }
    ensures reads { ReadsFor (look_view look.now) result (D.state device.old) (D.state device.new) }
    ensures told { IsTrue (D.state device.old).honest
        → FailsForLackIn (look_view look.now) result (D.state device.old) (D.state device.new)
        → IsLookReply (look_view look.now) (extra_view extra)
        (record {
          form = F.form format.now;
          files = F.files format.now;
          units = F.meaning format.now;
          unreserved = F.meaning (F.unreserved format.now);
        })
        (D.state device.old) result }
{
    match look {
        Look::Catalog => listing_reply(alloc, device, format),
        Look::Entries(options) => entries_reply(alloc, device, format, *options),
        Look::Check { bodies: false } => check_reply(alloc, device, format, format.form()),
        Look::Check { bodies: true } => bodies_reply(alloc, device, format),
        Look::Map => map_reply(alloc, device, format),
        Look::Read {
            name,
            form,
            to_file,
        } => read_reply(alloc, device, format, file_name(name), *form, *to_file),
        Look::Plan {
            reclaim,
            words: false,
        } => plan_reply(alloc, device, format, *reclaim),
        Look::Plan {
            reclaim,
            words: true,
        } => plan_words_reply(alloc, device, format, *reclaim),
        Look::Compare(options) => compare_beside(alloc, device, format, extra, *options),
        Look::Verify { reclaim } => { verify_reply(alloc, device, format, *reclaim, extra.file()) }
    }
}

/// What is told of a look at the volume of a device, where these places are reserved, with what is read beside
/// it. Each failure of the device is told, and nothing else is told as one.
pub fn look_at_volume<D: Device>(
    alloc: Global,
    look: &Look,
    extra: Extra,
    device: &mut D,
    options: VolumeOptions,
    reserved: Reserved,
) -> Reply
    requires { HasUnitsOf options.file_system (D.state device.old) }
    ensures reads { ReadsFor (look_view look.now) result (D.state device.old) (D.state device.new) }
    ensures told { IsTrue (D.state device.old).honest
        → FailsForLackIn (look_view look.now) result (D.state device.old) (D.state device.new)
        → (result ≡ failed OfMemory) ⊎ IsLookReply (look_view look.now) (extra_view extra) (shown_by options reserved)
        (D.state device.old) result }
{
    let Ok(format) = format_of(alloc, options, reserved) else {
        return Reply::failed(Failure::Memory);
    };
    match &format {
        VolumeFormat::Dos(dos) => look_reply(alloc, look, extra, device, dos),
        VolumeFormat::Prodos(prodos) => look_reply(alloc, look, extra, device, prodos),
    }
}

/// What is told of a look at the volume of a device, with what is read beside it. The words may reserve places.
/// Each failure of the device is told, and nothing else is told as one.
pub fn look_on_device<D: Device>(
    alloc: Global,
    look: &Look,
    extra: Extra,
    device: &mut D,
    options: VolumeOptions,
    reserve: Option<&str>,
) -> Reply
    requires { HasUnitsOf options.file_system (D.state device.old) }
    ensures reads { ReadsFor (look_view look.now) result (D.state device.old) (D.state device.new) }
    ensures told { IsTrue (D.state device.old).honest
        → HasNotFailed (look_view look.now) result (D.state device.old) (D.state device.new)
        → IsDeviceReply options.file_system (option_map (λ s. s.now) reserve.entry)
        (λ reserved. IsLookReply (look_view look.now) (extra_view extra) (shown_by options reserved)
        (D.state device.old) result) result }
{
    match reserved_by(alloc, form_of(options.file_system), reserve) {
        Ok(reserved) => look_at_volume(alloc, look, extra, device, options, reserved),
        Err(error) => reserve_reply(error),
    }
}
