// What is told of the files of a folder that are added to the volume of an image.
ghost use Rattle.std.specs.Prelude.{◌≡◌, ◌⊎◌, ◌<◌, IfErr, IsTrue, map, OnOk, option_map, slice_index_or};
ghost use Rattle.a2_device.specs.Device.{OnlyReads};
ghost use Rattle.folder_adding.specs.AddReply.{
  AreToldItems,
  IsAddAnswer,
  IsAddReply,
  IsFolderReply,
  IsPlanReply,
  IsPlanTold,
  IsShelled,
  TellsAdded,
  TellsAt,
  batch_of as items_of,
  path_of,
};
ghost use Rattle.folder_adding.specs.HostEntries.{entry_view};
ghost use Rattle.folder_adding.specs.Items.{batch_view};
ghost use Rattle.folder_adding.specs.Plan.{plan_view};
ghost use Rattle.folder_adding.specs.Replying.{adding_view, folder_view, tells_device};
ghost use Rattle.shop_changes.specs.EditRules.{changed_by, edit_rules};
ghost use Rattle.shop_changes.specs.ReplaceReply.{IsOpened};
ghost use Rattle.shop_jobs.specs.Input.{reading_view};
ghost use Rattle.shop_jobs.specs.Job.{addition_view};
ghost use Rattle.shop_replies.specs.Reply.{failed, refused};
ghost use Rattle.shop_replies.specs.Volume.{HasUnitsOf};
ghost use Rattle.shop_replies.specs.declared.refusal.Failure.TheVariants as failures;
ghost use Rattle.shop_replies.specs.declared.refusal.Refusal.TheVariants as refusals;
ghost use Rattle.vol_format.specs.Accepted.{IsVolume};
ghost use Rattle.vol_format.specs.Fits.{Fits};

use crate::adding::{Refused, add_all};
use crate::host_entry::HostEntry;
use crate::host_files::HostFiles;
use crate::item::{Batch, number_at};
use crate::making::{Unmade, make_all};
use crate::planned::{Plan, PlanError};
use crate::planning::plan;
use crate::refusing::reply_at;
use crate::telling::added_text;
use a2_device::Device;
use a2_media::ImageDevice;
use disk_container::Shell;
use edit_formats::SavableFormat;
use file_edits::{Acceptance, DirectoryFormat};
use pro_dates::date;
use pro_dir::ProDate;
use shop_changes::image_bytes;
use shop_jobs::{AddOptions, FileSystem, ImageReading, VolumeOptions};
use shop_replies::{Failure, Refusal, Reply};
use shop_volumes::{VolumeFormat, format_of, volume_in};
use std::alloc::Global;
use vol_check::{CheckError, check};
use vol_layout::Reserved;

/// A folder whose files are added to a volume.
#[derive(Clone, Copy)]
pub(crate) struct Folder<'a> {
    pub file_system: FileSystem,
    /// The directory of the volume into which they go, where one is said.
    pub into: Option<&'a str>,
    pub entries: &'a [HostEntry],
    /// The date of the creation of each.
    pub date: ProDate,
}

// Looks whether a volume is accepted.
//
// # Errors
// The reply to one that is not, or that can't be looked at.
fn weigh_volume<D: Device, F: SavableFormat>(
    alloc: Global,
    device: &mut D,
    format: &F,
) -> Result<(), Reply>
    requires fits { Fits (F.meaning format.now) (D.state device.old) }
    ensures looked { OnlyReads (tells_device result) (D.state device.old) (D.state device.new) }
    ensures accepted { IsTrue (D.state device.old).honest
        → OnOk result (IsVolume (F.meaning format.now) (D.state device.old).store) }
    ensures refused { IsTrue (D.state device.old).honest → IfErr result (λ reply. reply ≡ refused refusals.Check
        → ¬ IsVolume (F.meaning format.now) (D.state device.old).store) }
    ensures told { IfErr result (λ reply. (reply ≡ refused refusals.Check) ⊎ (reply ≡ failed failures.Device)
        ⊎ (reply ≡ failed failures.Memory)) }
{
    match check(alloc, device, format) {
        Ok(_) => Ok(()),
        Err(CheckError::Faults(_)) => Err(Reply::refused(Refusal::Check)),
        Err(CheckError::Device) => Err(Reply::failed(Failure::Device)),
        Err(CheckError::Memory) => Err(Reply::failed(Failure::Memory)),
    }
}

// The items of a plan as they are saved.
fn batch_of<'a>(folder: &Folder<'_>, plan: &'a Plan) -> Batch<'a>
    ensures { batch_view result ≡ items_of (adding_view folder.now (plan_view plan.now)) }
{
    Batch {
        file_system: folder.file_system,
        date: folder.date,
        items: plan.items.as_slice(),
        files: plan.files.as_slice(),
    }
}

// What is told where all items of a plan were saved, with the image that is now under the device.
fn added_reply(alloc: Global, device: ImageDevice, folder: &Folder<'_>, plan: &Plan) -> Reply
    ensures { (result ≡ failed failures.Memory) ⊎ TellsAdded (adding_view folder.now (plan_view plan.now))
        (⟦<ImageDevice as Device>⟧.state device) result }
{
    let batch = batch_of(folder, plan);
    match added_text(alloc, &batch, folder.entries, plan.passed.as_slice()) {
        Ok(text) => Reply::made_telling(text, image_bytes(device)),
        Err(_) => Reply::failed(Failure::Memory),
    }
}

// The path of the entry of a number.
fn path_at(entries: &[HostEntry], number: usize) -> &str
    ensures { result.now ≡ path_of (map entry_view entries.now) number }
{
    match entries.get(number) {
        Some(entry) => entry.path.as_str(),
        None => "",
    }
}

// What is told of an item that was not saved.
fn refused_reply(alloc: Global, refused: Refused, entries: &[HostEntry]) -> Reply
    ensures { TellsAt (path_of (map entry_view entries.now) refused.file) refused.reply result }
{
    let Refused { file, reply, .. } = refused;
    reply_at(alloc, path_at(entries, file), reply)
}

// What is told of a directory that was not made.
fn unmade_reply(alloc: Global, unmade: Unmade, entries: &[HostEntry], folders: &[usize]) -> Reply
    ensures { TellsAt (path_of (map entry_view entries.now) (slice_index_or folders.now unmade.directory 0))
        unmade.reply result }
{
    let Unmade { directory, reply } = unmade;
    reply_at(
        alloc,
        path_at(entries, number_at(folders, directory)),
        reply,
    )
}

// Saves the items of a plan to the accepted volume of an image, one after the other, and tells of them.
fn save_items<F: SavableFormat, H: HostFiles>(
    alloc: Global,
    device: ImageDevice,
    format: &F,
    folder: &Folder<'_>,
    plan: &Plan,
    files: &mut H,
) -> Reply
    requires fits { Fits (F.meaning format.now) (⟦<ImageDevice as Device>⟧.state device) }
    requires size { 0 < (⟦<ImageDevice as Device>⟧.state device).unit_size }
    requires honest { IsTrue (⟦<ImageDevice as Device>⟧.state device).honest }
    requires accepted { IsVolume (F.meaning format.now) (⟦<ImageDevice as Device>⟧.state device).store }
    ensures told { (result ≡ failed failures.Memory) ⊎ AreToldItems H.may_fail
        (adding_view folder.now (plan_view plan.now)) (H.holds files.old) (F.saves format.now) (F.meaning format.now)
        (⟦<ImageDevice as Device>⟧.state device) result }
{
    let mut device = device;
    let batch = batch_of(folder, plan);
    let known = Acceptance::Known;
    match add_all(alloc, &mut device, format, known, &batch, files) {
        Ok(()) => added_reply(alloc, device, folder, plan),
        Err(refused) => refused_reply(alloc, refused, folder.entries),
    }
}

// Makes the directories of a plan and saves its items, and tells of them.
fn save_plan<F: DirectoryFormat, H: HostFiles>(
    alloc: Global,
    device: ImageDevice,
    format: &F,
    folder: &Folder<'_>,
    plan: &Plan,
    files: &mut H,
) -> Reply
    requires fits { Fits (F.meaning format.now) (⟦<ImageDevice as Device>⟧.state device) }
    requires size { 0 < (⟦<ImageDevice as Device>⟧.state device).unit_size }
    requires honest { IsTrue (⟦<ImageDevice as Device>⟧.state device).honest }
    requires accepted { IsVolume (F.meaning format.now) (⟦<ImageDevice as Device>⟧.state device).store }
    ensures told { (result ≡ failed failures.Memory) ⊎ IsPlanTold H.may_fail
        (adding_view folder.now (plan_view plan.now)) (H.holds files.old) (record {
          files = F.files format.now;
          directories = F.directories format.now;
          edits = edit_rules (F.edits format.now) (F.names format.now) (F.erasures format.now) (F.saves format.now);
          units = F.meaning format.now;
        }) (⟦<ImageDevice as Device>⟧.state device) result }
{
    let mut device = device;
    let paths = plan.directories.as_slice();
    let folders = plan.folders.as_slice();
    match make_all(alloc, &mut device, format, paths, folder.date) {
        Ok(()) => save_items(alloc, device, format, folder, plan, files),
        Err(unmade) => unmade_reply(alloc, unmade, folder.entries, folders),
    }
}

// The same, where the volume is accepted.
fn add_plan<F: DirectoryFormat, H: HostFiles>(
    alloc: Global,
    device: ImageDevice,
    format: &F,
    folder: &Folder<'_>,
    plan: &Plan,
    files: &mut H,
) -> Reply
    requires fits { Fits (F.meaning format.now) (⟦<ImageDevice as Device>⟧.state device) }
    requires size { 0 < (⟦<ImageDevice as Device>⟧.state device).unit_size }
    requires opened { IsOpened folder.now.file_system (⟦<ImageDevice as Device>⟧.state device) }
    ensures told { IsPlanReply H.may_fail (adding_view folder.now (plan_view plan.now))
        (H.holds files.old) (record {
          files = F.files format.now;
          directories = F.directories format.now;
          edits = edit_rules (F.edits format.now) (F.names format.now) (F.erasures format.now) (F.saves format.now);
          units = F.meaning format.now;
        }) (⟦<ImageDevice as Device>⟧.state device) result }
{
    let mut device = device;
    match weigh_volume(alloc, &mut device, format) {
        Ok(()) => save_plan(alloc, device, format, folder, plan, files),
        Err(reply) => reply,
    }
}

// The same of the volume as it is read, or want of memory for its format.
fn add_planned<H: HostFiles>(
    alloc: Global,
    device: ImageDevice,
    volume: VolumeOptions,
    reserved: Reserved,
    folder: &Folder<'_>,
    plan: &Plan,
    files: &mut H,
) -> Reply
    requires units { HasUnitsOf volume.file_system (⟦<ImageDevice as Device>⟧.state device) }
    requires opened { IsOpened folder.now.file_system (⟦<ImageDevice as Device>⟧.state device) }
    ensures told { IsPlanReply H.may_fail (adding_view folder.now (plan_view plan.now))
        (H.holds files.old) (changed_by volume reserved) (⟦<ImageDevice as Device>⟧.state device) result }
{
    let Ok(format) = format_of(alloc, volume, reserved) else {
        return Reply::failed(Failure::Memory);
    };
    match &format {
        VolumeFormat::Dos(dos) => add_plan(alloc, device, dos, folder, plan, files),
        VolumeFormat::Prodos(prodos) => add_plan(alloc, device, prodos, folder, plan, files),
    }
}

// Adds the files of a folder to the volume under a device, where each of its entries says what is to be done with it.
fn add_folder<H: HostFiles>(
    alloc: Global,
    device: ImageDevice,
    volume: VolumeOptions,
    reserved: Reserved,
    folder: &Folder<'_>,
    files: &mut H,
) -> Reply
    requires units { HasUnitsOf volume.file_system (⟦<ImageDevice as Device>⟧.state device) }
    requires opened { IsOpened volume.file_system (⟦<ImageDevice as Device>⟧.state device) }
    requires same { folder.now.file_system ≡ volume.file_system }
    ensures told { IsFolderReply H.may_fail (folder_view folder.now) folder.now.date
        (H.holds files.old) (changed_by volume reserved) (⟦<ImageDevice as Device>⟧.state device) result }
{
    match plan(alloc, folder.file_system, folder.into, folder.entries) {
        Ok(plan) => add_planned(alloc, device, volume, reserved, folder, &plan, files),
        Err(PlanError::Refused { entry, refusal }) => {
            reply_at(
                alloc,
                path_at(folder.entries, entry),
                Reply::refused(refusal),
            )
        }
        Err(PlanError::Memory) => Reply::failed(Failure::Memory),
    }
}

// Adds the files of a folder to the volume of an image, as words say it.
fn add_to_image<H: HostFiles>(
    alloc: Global,
    image: Vec<u8>,
    volume: VolumeOptions,
    reserve: Option<&str>,
    options: &AddOptions,
    entries: &[HostEntry],
    files: &mut H,
) -> Reply
    ensures told { IsAddReply H.may_fail volume (option_map (λ s. s.now) reserve.entry)
        (addition_view options.now) (map entry_view entries.now) (H.holds files.old) image.items result }
{
    let Some(date) = date(options.date.as_deref()) else {
        return Reply::refused(Refusal::Date);
    };
    let folder = Folder {
        file_system: volume.file_system,
        into: options.into.as_deref(),
        entries,
        date,
    };
    match volume_in(alloc, image, volume, reserve) {
        Ok((device, reserved)) => add_folder(alloc, device, volume, reserved, &folder, files),
        Err(reply) => reply,
    }
}

// The same reply, with its image in the shell of a container, where there is one.
fn in_shell(alloc: Global, shell: Option<&Shell>, reply: Reply) -> Reply
    ensures { IsShelled (option_map (λ s. s.now) shell.entry) reply result }
{
    match shell {
        Some(shell) => reply.in_shell(alloc, shell),
        None => reply,
    }
}

/// The reply to a job that adds the files of a folder to the volume that an image is read as, with the bytes of that,
/// or of the payload of a container with this shell. These are the entries of the folder, and `files` has a file for
/// each number of an entry; one of them is in memory at a time, with the readable form beside it. Of ProDOS each folder
/// in it is a directory, which is made where none is there, before a file is read.
///
/// Of several refusals the first comes in this order: `Unknown` where the volume is left to the image and not settled;
/// `Date`; `Reserve`; `Length`; `Host`, `Type` or `Name` of the first entry that is refused; `Check`; of each folder in
/// turn `Exists`, `DirFull` and the others of a directory that is made; of each file in turn `InputTooLong`, of the
/// readable form beside it `InputTooLong` and `Differs`, and of the file again `Text` and those of a saving. Those of
/// an entry have its path behind them, `Differs` that of the readable form. An image comes where all were added.
pub fn add_reply<H: HostFiles>(
    alloc: Global,
    reading: &ImageReading,
    options: &AddOptions,
    image: Vec<u8>,
    entries: &[HostEntry],
    files: &mut H,
    shell: Option<&Shell>,
) -> Reply
    ensures told { IsAddAnswer H.may_fail (reading_view reading.now) (addition_view options.now)
        (map entry_view entries.now) (H.holds files.old) image.items (option_map (λ s. s.now) shell.entry) result }
{
    let Some(volume) = reading.volume() else {
        return Reply::refused(Refusal::Unknown);
    };
    let reserve = reading.reserve();
    let reply = add_to_image(alloc, image, volume, reserve, options, entries, files);
    in_shell(alloc, shell, reply)
}
