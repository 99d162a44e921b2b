// The job that tells whether a volume is accepted.
ghost use Rattle.std.specs.Prelude.{◌≡◌, ◌⊎◌, ◌<◌, All, IsTrue, None, Some, flat_map};
ghost use Rattle.a2_device.specs.Device.{OnlyReads};
ghost use Rattle.vol_check.specs.Told.{told_of};
ghost use Rattle.shop_reads.specs.CheckReply.{IsChecked, TellsAccepted, TellsFaults, TellsRefusal};
ghost use Rattle.shop_reads.specs.CheckText.{fault_line};
ghost use Rattle.shop_reads.specs.FaultLines.{NamesFilesOrNone, file_lines};
ghost use Rattle.shop_replies.specs.Reply.{fault_files_in, text_of};
ghost use Rattle.vol_format.specs.Directory.{entries};
ghost use Rattle.shop_volumes.specs.TellingFailures.{FailsForLack, tells_device};
ghost use Rattle.vol_format.specs.Fits.{Fits};

use crate::check_text::{accepted_line, fault_lines};
use crate::fault_files::file_lines;
use a2_device::Device;
use file_formats::FileFormat;
use shop_replies::{Failure, Reply};
use std::alloc::Global;
use vol_check::{CheckError, Checked, Faults, Judgement, judge};
use vol_format::Format;
use vol_layout::PlaceForm;

/// The reply to an accepted volume.
pub fn accepted_reply<V: Drop>(alloc: Global, checked: &Checked<V>) -> Reply
    ensures told { TellsAccepted (told_of checked.now) result }
    ensures files { fault_files_in result.told ≡ None }
{
    match accepted_line(alloc, checked) {
        Ok(text) => Reply::done(text),
        Err(_) => Reply::failed(Failure::Memory),
    }
}

/// The reply to a volume that is not accepted, or that could not be checked.
pub fn refused_reply(alloc: Global, form: PlaceForm, error: &CheckError) -> Reply
    ensures told { TellsRefusal form error.now result }
    ensures files { fault_files_in result.told ≡ None }
{
    match error {
        CheckError::Faults(faults) => match fault_lines(alloc, form, faults.as_slice()) {
            Ok(text) => Reply::wrong(text),
            Err(_) => Reply::failed(Failure::Memory),
        },
        CheckError::Device => Reply::failed(Failure::Device),
        CheckError::Memory => Reply::failed(Failure::Memory),
    }
}

/// The reply to a volume that has faults. Where there is memory for it, it names the files of the first of each kind.
pub fn faults_reply<F: FileFormat>(
    alloc: Global,
    form: PlaceForm,
    format: &F,
    volume: &F::Volume,
    faults: &Faults,
) -> Reply
    requires { All (λ file. file < entries (F.directory format.now volume.now)) faults.now.files }
    ensures told { TellsFaults form faults.now.faults result }
    ensures files { (fault_files_in result.told ≡ None)
        ⊎ ((text_of result ≡ flat_map (fault_line form) faults.now.faults)
        × (fault_files_in result.told
        ≡ Some (file_lines form (F.files format.now) (F.directory format.now volume.now) faults.now))) }
{
    let Ok(text) = fault_lines(alloc, form, faults.as_slice()) else {
        return Reply::failed(Failure::Memory);
    };
    match file_lines(alloc, form, format, volume, faults) {
        Ok(files) => Reply::faults(text, files),
        Err(_) => Reply::wrong(text),
    }
}

/// Whether the volume on a device is accepted, or what is wrong with it. Beside the faults that it tells it keeps the
/// files of the first of each kind.
pub fn check_reply<D: Device, F: FileFormat>(
    alloc: Global,
    device: &mut D,
    format: &F,
    form: PlaceForm,
) -> Reply
    requires fits { Fits (F.meaning format.now) (D.state device.old) }
    ensures reads { OnlyReads (tells_device result) (D.state device.old) (D.state device.new) }
    ensures told { IsTrue (D.state device.old).honest → FailsForLack (D.state device.old) result
        → IsChecked form (F.meaning format.now) (D.state device.old) result }
    ensures files { IsTrue (D.state device.old).honest → NamesFilesOrNone form (F.files format.now)
        (F.meaning format.now) (D.state device.old).store result }
{
    match judge(alloc, device, format) {
        Ok(Judgement::Accepted(checked)) => accepted_reply(alloc, &checked),
        Ok(Judgement::Refused(volume, faults)) => {
            faults_reply(alloc, form, format, &volume, &faults)
        }
        Err(error) => refused_reply(alloc, form, &error),
    }
}
