// A file of an image's volume in the place of another one.
ghost use Rattle.std.specs.Prelude.{◌≡◌, ◌⊎◌};
ghost use Rattle.shop_changes.specs.EditRules.{changed_by, edit_rules};
ghost use Rattle.shop_changes.specs.SaidFile.{said_view};
ghost use Rattle.shop_changes.specs.ReplaceReply.{HasDisk, IsOpened, IsPlainReplaced, IsReopened, IsReplaced};
ghost use Rattle.shop_replies.specs.Reply.{failed};
ghost use Rattle.shop_replies.specs.Volume.{HasUnitsOf};
ghost use Rattle.shop_replies.specs.declared.refusal.Failure.TheVariants.{Memory as OfMemory};
ghost use Rattle.vol_format.specs.Fits.{Fits};

use crate::changing_image::outcome_reply;
use crate::given_words::kind_unsaid;
use crate::{MOST_INPUT, SaidFile, make_way, save_in_place, taken_plain};
use a2_device::Device;
use a2_media::ImageDevice;
use edit_formats::SavableFormat;
use file_edits::{Acceptance, DirectoryFormat};
use shop_jobs::{FileSystem, VolumeOptions};
use shop_replies::{Failure, Refusal, Reply, device_of};
use shop_volumes::{VolumeFormat, format_of};
use std::alloc::Global;
use vol_layout::Reserved;

// The device of the same image as it is opened, with no call counted.
fn reopened(device: ImageDevice, file_system: FileSystem) -> ImageDevice
    requires units { HasUnitsOf file_system (⟦<ImageDevice as Device>⟧.state device) }
    requires disk { HasDisk file_system (⟦<ImageDevice as Device>⟧.state device) }
    ensures opened { IsOpened file_system (⟦<ImageDevice as Device>⟧.state result) }
    ensures same { IsReopened (⟦<ImageDevice as Device>⟧.state device) (⟦<ImageDevice as Device>⟧.state result) }
    ensures units { HasUnitsOf file_system (⟦<ImageDevice as Device>⟧.state result) }
{
    device_of(device.into_image(), file_system)
}

// Saves a file that is given as it is in the place of another one, where there is none with this type if none is said.
fn replace_plain<F: SavableFormat>(
    alloc: Global,
    device: ImageDevice,
    format: &F,
    file_system: FileSystem,
    path: &[u8],
    said: SaidFile<'_>,
    unsaid: u8,
) -> Reply
    requires fits { Fits (F.meaning format.now) (⟦<ImageDevice as Device>⟧.state device) }
    requires units { HasUnitsOf file_system (⟦<ImageDevice as Device>⟧.state device) }
    requires disk { HasDisk file_system (⟦<ImageDevice as Device>⟧.state device) }
    requires opened { IsOpened file_system (⟦<ImageDevice as Device>⟧.state device) }
    ensures { IsPlainReplaced path.now (said_view said.entry) unsaid (F.files format.now)
        (edit_rules (F.edits format.now) (F.names format.now) (F.erasures format.now) (F.saves format.now))
        (F.meaning format.now) (⟦<ImageDevice as Device>⟧.state device) result }
{
    let mut device = device;
    match make_way(alloc, &mut device, format, path, said, unsaid) {
        Ok(given) => {
            let mut device = reopened(device, file_system);
            let known = Acceptance::Unknown;
            let outcome = save_in_place(alloc, &mut device, format, known, path, given);
            outcome_reply(alloc, device, outcome)
        }
        Err(reply) => reply,
    }
}

// Saves a file as words and bytes say it in the place of another one.
fn replace_said<F: DirectoryFormat>(
    alloc: Global,
    device: ImageDevice,
    format: &F,
    file_system: FileSystem,
    path: &[u8],
    said: SaidFile<'_>,
) -> Reply
    requires fits { Fits (F.meaning format.now) (⟦<ImageDevice as Device>⟧.state device) }
    requires units { HasUnitsOf file_system (⟦<ImageDevice as Device>⟧.state device) }
    requires disk { HasDisk file_system (⟦<ImageDevice as Device>⟧.state device) }
    requires opened { IsOpened file_system (⟦<ImageDevice as Device>⟧.state device) }
    ensures { IsReplaced path.now (said_view said.entry) (record {
      files = F.files format.now;
      directories = F.directories format.now;
      edits = edit_rules (F.edits format.now) (F.names format.now) (F.erasures format.now) (F.saves format.now);
      units = F.meaning format.now;
    }) (⟦<ImageDevice as Device>⟧.state device) result }
{
    if said.bytes.len() > MOST_INPUT {
        return Reply::refused(Refusal::InputTooLong);
    }
    let unsaid = kind_unsaid(said.file_system, said.form);
    match said.form {
        None => replace_plain(alloc, device, format, file_system, path, said, unsaid),
        Some(form) => match taken_plain(alloc, said, form) {
            Ok(plain) => {
                let said = plain.said();
                replace_plain(alloc, device, format, file_system, path, said, unsaid)
            }
            Err(reply) => reply,
        },
    }
}

/// What is told of a file that takes the place of another one on the volume of an image, with the image as it then is,
/// or want of memory for the format.
pub(crate) fn replace_on_image(
    alloc: Global,
    device: ImageDevice,
    options: VolumeOptions,
    reserved: Reserved,
    path: &[u8],
    said: SaidFile<'_>,
) -> Reply
    requires units { HasUnitsOf options.file_system (⟦<ImageDevice as Device>⟧.state device) }
    requires disk { HasDisk options.file_system (⟦<ImageDevice as Device>⟧.state device) }
    requires opened { IsOpened options.file_system (⟦<ImageDevice as Device>⟧.state device) }
    ensures { (result ≡ failed OfMemory) ⊎ IsReplaced path.now (said_view said.entry) (changed_by options reserved)
        (⟦<ImageDevice as Device>⟧.state device) result }
{
    let Ok(format) = format_of(alloc, options, reserved) else {
        return Reply::failed(Failure::Memory);
    };
    let system = options.file_system;
    match &format {
        VolumeFormat::Dos(dos) => replace_said(alloc, device, dos, system, path, said),
        VolumeFormat::Prodos(prodos) => replace_said(alloc, device, prodos, system, path, said),
    }
}
