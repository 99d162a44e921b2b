// Jobs on the device that has their volume.
ghost use Rattle.std.specs.Prelude.{◌≡◌, IsTrue};
ghost use Rattle.shop_jobs.specs.Input.{input_view, reading_view, volume_of};
ghost use Rattle.shop_jobs.specs.Job.{change_view, look_view};
ghost use Rattle.shop_reads.specs.GoingOn.{HasNotFailed};
ghost use Rattle.shop_commands.specs.OnDevice.{HasUnitsFor, IsJobOutcome, IsToldOnDevice, ReadsIn};

use crate::beside::extra_of;
use crate::work::change_work;
use a2_device::Device;
use shop_changes::{Outcome, change_in_place};
use shop_jobs::{Change, ImageReading, Input, Look};
use shop_reads::look_on_device;
use shop_replies::{Refusal, Reply};
use std::alloc::Global;

/// Does a look at the volume that a job reads on the device that has it, with the bytes of what is read beside the
/// image. Each failure of the device is told, and nothing else is told as one. Where the volume is not known the look
/// is refused with `Unknown`, and no call of the device is made.
pub fn read_job_on_device<D: Device>(
    alloc: Global,
    look: &Look,
    input: &Input,
    extra: Vec<u8>,
    device: &mut D,
) -> Reply
    requires units { HasUnitsFor (reading_view input.now.reading) (D.state device.old) }
    ensures reads { ReadsIn (volume_of (reading_view input.now.reading)) (look_view look.now) result
        (D.state device.old) (D.state device.new) }
    ensures told { IsTrue (D.state device.old).honest
        → HasNotFailed (look_view look.now) result (D.state device.old) (D.state device.new)
        → IsToldOnDevice (look_view look.now) (input_view input.now) extra.items (D.state device.old) result }
{
    let Some(volume) = input.reading.volume() else {
        return Reply::refused(Refusal::Unknown);
    };
    let reserve = input.reading.reserve();
    let extra = extra_of(&input.beside, extra);
    look_on_device(alloc, look, extra, device, volume, reserve)
}

/// Does a change of the volume that an image is read as on the device that has it, with the bytes of a file beside the
/// image, and hands the device back. All memory is taken before the first write, and after a failure of the device no
/// call of it is made. Where the volume is not known the change is refused with `Unknown`.
pub fn run_job_in_place<D: Device>(
    alloc: Global,
    change: &Change,
    reading: &ImageReading,
    extra: &[u8],
    device: D,
) -> (Outcome, D)
    requires units { HasUnitsFor (reading_view reading.now) (D.state device) }
    ensures { IsJobOutcome (change_view change.now) (reading_view reading.now) extra.now (D.state device)
        (D.state result.1) result.0 }
{
    let Some(volume) = reading.volume() else {
        return (
            Outcome::Unfinished(Reply::refused(Refusal::Unknown)),
            device,
        );
    };
    match change_work(volume, change, extra) {
        Ok(work) => change_in_place(alloc, work, device, volume, reading.reserve()),
        Err(refusal) => (Outcome::Unfinished(Reply::refused(refusal)), device),
    }
}
