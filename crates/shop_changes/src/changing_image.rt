// Changing the volume of an image.
ghost use Rattle.std.specs.Prelude.{◌≡◌, ◌⊎◌, MatchOption, option_map};
ghost use Rattle.shop_changes.specs.EditRules.{changed_by};
ghost use Rattle.shop_changes.specs.SaidFile.{said_view};
ghost use Rattle.shop_changes.specs.Work.{Replace, work_view};
ghost use Rattle.shop_changes.specs.declared.outcome.Outcome.TheVariants.{Optimized};
ghost use Rattle.shop_changes.specs.ChangeReply.{IsChangeReply, StandsOnDevice, TellsOutcome};
ghost use Rattle.shop_changes.specs.ImageBytes.{AreBytesOf};
ghost use Rattle.shop_changes.specs.ReplaceReply.{HasDisk, IsOpened};
ghost use Rattle.shop_volumes.specs.VolumeReply.{IsVolumeReply};
ghost use Rattle.shop_replies.specs.Reply.{failed};
ghost use Rattle.shop_replies.specs.Volume.{HasUnitsOf};
ghost use Rattle.shop_replies.specs.declared.refusal.Failure.TheVariants.{Memory as OfMemory};

use crate::replacing_in_image::replace_on_image;
use crate::{Outcome, SaidFile, Work, change_volume, line_text};
use a2_device::Device;
use a2_media::ImageDevice;
use shop_jobs::VolumeOptions;
use shop_replies::{Failure, Reply};
use shop_volumes::volume_in;
use std::alloc::Global;
use vol_layout::Reserved;
use vol_mover::Report;

/// The bytes of the image under a device.
pub fn image_bytes(device: ImageDevice) -> Vec<u8>
    ensures { AreBytesOf (⟦<ImageDevice as Device>⟧.state device) result.items }
{
    let image = device.into_image();
    // Called for what its contract says: the bytes of an image hold its sectors in its order.
    let _order = image.order();
    image.into_bytes()
}

// The report of an optimization, and the image with it.
fn report_reply(alloc: Global, device: ImageDevice, report: Report) -> Reply
    ensures { TellsOutcome (⟦<ImageDevice as Device>⟧.state device) (Optimized report) result }
{
    match line_text(alloc, &report) {
        Ok(line) => {
            let Report { cert, .. } = report;
            Reply::optimized(line, cert, image_bytes(device))
        }
        Err(_) => Reply::failed(Failure::Memory),
    }
}

// What is told of what became of the work, with the image that is now under the device.
pub(crate) fn outcome_reply(alloc: Global, device: ImageDevice, outcome: Outcome) -> Reply
    ensures { TellsOutcome (⟦<ImageDevice as Device>⟧.state device) outcome result }
{
    match outcome {
        Outcome::Optimized(report) => report_reply(alloc, device, report),
        Outcome::Changed => Reply::made(image_bytes(device)),
        Outcome::Stopped => Reply::interrupted(image_bytes(device)),
        Outcome::Unfinished(reply) => reply,
    }
}

// The path of a file that takes the place of another one, and the file as it is said, where that is the work.
fn replacement(work: Work<'_>) -> Option<(&[u8], SaidFile<'_>)>
    ensures { MatchOption result (StandsOnDevice (work_view work.entry))
        (λ file. work_view work.entry ≡ Replace file.0.now (said_view file.1)) }
{
    match work {
        Work::Replace { path, said } => Some((path, said)),
        Work::Optimize { .. }
        | Work::Edit { .. }
        | Work::Save { .. }
        | Work::Reclaim
        | Work::MakeDirectory { .. } => None,
    }
}

// What is told of work that changes the volume of an image under a device, with the image as it then is, or want of
// memory for the format.
fn change_on_image(
    alloc: Global,
    work: Work<'_>,
    device: ImageDevice,
    options: VolumeOptions,
    reserved: Reserved,
) -> Reply
    requires units { HasUnitsOf options.file_system (⟦<ImageDevice as Device>⟧.state device) }
    requires disk { HasDisk options.file_system (⟦<ImageDevice as Device>⟧.state device) }
    requires opened { IsOpened options.file_system (⟦<ImageDevice as Device>⟧.state device) }
    ensures { (result ≡ failed OfMemory) ⊎ IsChangeReply (work_view work.entry) (changed_by options reserved)
        (⟦<ImageDevice as Device>⟧.state device) result }
{
    match replacement(work) {
        Some((path, said)) => replace_on_image(alloc, device, options, reserved, path, said),
        None => {
            let (outcome, device) = change_volume(alloc, work, device, options, reserved);
            outcome_reply(alloc, device, outcome)
        }
    }
}

/// What is told of work that changes the volume of an image, with the image as it then is. The words may reserve
/// places, as sectors or as blocks.
///
/// `Refused` with `Reserve` where they are no list of places, with `Length` where no image of this order has so many
/// bytes; else what the work tells of the units that the image holds, or `Failed` for want of memory. An image comes
/// where the work is done, and where a step of an optimization failed.
pub fn image_change(
    alloc: Global,
    work: Work<'_>,
    image: Vec<u8>,
    options: VolumeOptions,
    reserve: Option<&str>,
) -> Reply
    ensures { IsVolumeReply options (option_map (λ s. s.now) reserve.entry) image.items
        (λ reserved. IsChangeReply (work_view work.entry) (changed_by options reserved)) result }
{
    match volume_in(alloc, image, options, reserve) {
        Ok((device, reserved)) => change_on_image(alloc, work, device, options, reserved),
        Err(reply) => reply,
    }
}
