// Work that changes the volume of a device where it stands.
ghost use Rattle.std.specs.Prelude.{◌⊎◌, ◌<◌, option_map};
ghost use Rattle.shop_replies.specs.Volume.{HasUnitsOf};
ghost use Rattle.shop_changes.specs.Changing.{IsChangeOutcome, IsWorkOutcome, KeepsDevice, LacksMemory};
ghost use Rattle.shop_changes.specs.EditRules.{changed_by, edit_rules};
ghost use Rattle.shop_changes.specs.Work.{work_view};
ghost use Rattle.vol_format.specs.Fits.{Fits};

use crate::editing::edit_in_place;
use crate::making::make_in_place;
use crate::optimizing::optimize_in_place;
use crate::outcome::Outcome;
use crate::reclaiming::reclaim_in_place;
use crate::said_file::save_said;
use crate::work::Work;
use a2_device::Device;
use file_edits::{Acceptance, DirectoryFormat};
use shop_jobs::VolumeOptions;
use shop_replies::{Failure, Refusal, Reply, form_of};
use shop_volumes::{VolumeFormat, format_of, reserve_reply, reserved_by};
use std::alloc::Global;
use vol_layout::Reserved;

// Does work on the volume of a device, by its format.
fn change_by<D: Device, F: DirectoryFormat>(
    alloc: Global,
    work: Work<'_>,
    device: D,
    format: &F,
) -> (Outcome, D)
    requires fits { Fits (F.meaning format.now) (D.state device) }
    requires size { 0 < (D.state device).unit_size }
    ensures { IsWorkOutcome (work_view work.entry) (record {
      files = F.files format.now;
      directories = F.directories format.now;
      edits = edit_rules (F.edits format.now) (F.names format.now) (F.erasures format.now) (F.saves format.now);
      units = F.meaning format.now;
    }) (D.state device) (D.state result.1) result.0 }
{
    let mut device = device;
    match work {
        Work::Optimize { reclaim, limit } => {
            optimize_in_place(alloc, device, format, reclaim, limit)
        }
        Work::Edit { edit, name } => {
            let outcome = edit_in_place(alloc, &mut device, format, edit, name);
            (outcome, device)
        }
        Work::Save { path, said } => {
            let outcome = save_said(alloc, &mut device, format, Acceptance::Unknown, path, said);
            (outcome, device)
        }
        Work::Replace { .. } => (
            Outcome::Unfinished(Reply::refused(Refusal::InPlace)),
            device,
        ),
        Work::Reclaim => {
            let outcome = reclaim_in_place(alloc, &mut device, format);
            (outcome, device)
        }
        Work::MakeDirectory { path, date } => {
            let known = Acceptance::Unknown;
            let outcome = make_in_place(alloc, &mut device, format, known, path, date);
            (outcome, device)
        }
    }
}

/// Does work on the volume of a device, where these places are reserved, and hands the device back. All memory is taken
/// before the first write, and after a failure of the device no call of it is made.
pub fn change_volume<D: Device>(
    alloc: Global,
    work: Work<'_>,
    device: D,
    options: VolumeOptions,
    reserved: Reserved,
) -> (Outcome, D)
    requires { HasUnitsOf options.file_system (D.state device) }
    ensures done { LacksMemory (D.state device) (D.state result.1) result.0
        ⊎ IsWorkOutcome (work_view work.entry) (changed_by options reserved) (D.state device)
        (D.state result.1) result.0 }
    ensures kept { KeepsDevice (D.state device) (D.state result.1) result.0 }
{
    let Ok(format) = format_of(alloc, options, reserved) else {
        return (Outcome::Unfinished(Reply::failed(Failure::Memory)), device);
    };
    match &format {
        VolumeFormat::Dos(dos) => change_by(alloc, work, device, dos),
        VolumeFormat::Prodos(prodos) => change_by(alloc, work, device, prodos),
    }
}

/// Does work that changes a volume on the device that has it, and hands the device back. The words may reserve places.
/// All memory is taken before the first write, and after a failure of the device no call of it is made.
pub fn change_in_place<D: Device>(
    alloc: Global,
    work: Work<'_>,
    device: D,
    options: VolumeOptions,
    reserve: Option<&str>,
) -> (Outcome, D)
    requires { HasUnitsOf options.file_system (D.state device) }
    ensures { IsChangeOutcome options.file_system (option_map (λ s. s.now) reserve.entry)
        (λ reserved. IsWorkOutcome (work_view work.entry) (changed_by options reserved))
        (D.state device) (D.state result.1) result.0 }
{
    match reserved_by(alloc, form_of(options.file_system), reserve) {
        Ok(reserved) => change_volume(alloc, work, device, options, reserved),
        Err(error) => (Outcome::Unfinished(reserve_reply(error)), device),
    }
}
