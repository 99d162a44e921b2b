// The job that puts the files of a volume into a folder.
ghost use Rattle.std.specs.Prelude.{◌≡◌, IfErr, IfOk, IsTrue};
ghost use Rattle.file_cmds.specs.ReadingOn.{ReadsOn};
ghost use Rattle.shop_replies.specs.Volume.{HasUnitsOf};
ghost use Rattle.shop_commands.specs.Extracting.{
  IsExtractTold,
  IsNotExtractedBy,
  not_extracted as refused_by,
  options_of,
  plan_for,
};
ghost use Rattle.vol_format.specs.Fits.{Fits};
ghost use Rattle.volume_extract.specs.Extraction.{IsExtraction, plan_of};

use crate::telling::tell_extraction;
use a2_device::Device;
use host_folders::{Folder, FolderFailure};
use shop_jobs::{ExtractOptions, VolumeOptions};
use shop_replies::{Failure, Refusal, Reply, form_of};
use shop_volumes::{VolumeFormat, format_of};
use std::alloc::Global;
use std::io::Write;
use vol_layout::{PlaceForm, Reserved};
use volume_extract::{ExtractError, Options, TreeFormat, extract};

/// Why the files of a volume were not put into a folder and told.
#[derive(Drop)]
pub enum NotExtracted {
    /// The job is refused, or something failed, as this reply tells. Nothing was told.
    Refused(Reply),
    /// The folder could not be written. Nothing was told.
    Folder,
    /// The text could not be written. All files are in the folder.
    Text,
}

// Why nothing is extracted.
fn not_extracted(error: ExtractError) -> NotExtracted
    ensures { result ≡ refused_by error }
{
    match error {
        ExtractError::Check => NotExtracted::Refused(Reply::refused(Refusal::Check)),
        ExtractError::Device => NotExtracted::Refused(Reply::failed(Failure::Device)),
        ExtractError::TooDeep => NotExtracted::Refused(Reply::refused(Refusal::TooDeep)),
        ExtractError::TooLarge => NotExtracted::Refused(Reply::refused(Refusal::TooLarge)),
        ExtractError::Folder(FolderFailure::Failed) => NotExtracted::Folder,
        ExtractError::Folder(FolderFailure::Memory) | ExtractError::Memory => {
            NotExtracted::Refused(Reply::failed(Failure::Memory))
        }
    }
}

// Puts the files of a volume of a format into a folder, and tells of it.
fn extract_by<D: Device, F: TreeFormat, O: Folder, T: Write>(
    alloc: Global,
    device: &mut D,
    format: &F,
    form: PlaceForm,
    folder: &mut O,
    options: ExtractOptions,
    text: &mut T,
) -> Result<u8, NotExtracted>
    requires fits { Fits (F.meaning format.now) (D.state device.old) }
    ensures reads { ReadsOn (D.state device.old) (D.state device.new) }
    ensures same { (O.state folder.new).honest ≡ (O.state folder.old).honest }
    ensures extracted { IsTrue (D.state device.old).honest → IfOk result (λ status. IsExtraction
        (plan_of form (options_of options) (F.files format.now) (F.meaning format.now) (F.own format.now))
        (D.state device.old) (D.state device.new) (O.state folder.old) (O.state folder.new)
        (IsExtractTold status (T.contents text.old) (T.contents text.new))) }
    ensures refused { IsTrue (D.state device.old).honest → IfErr result (IsNotExtractedBy O.state O.may_fail
        (plan_of form (options_of options) (F.files format.now) (F.meaning format.now) (F.own format.now))
        (D.state device.old) (D.state device.new) (O.state folder.old) (O.state folder.new)
        (T.contents text.old) (T.contents text.new)) }
{
    let wanted = Options {
        naming: options.naming,
        texts: options.texts,
        most: options.most,
    };
    match extract(alloc, device, format, form, folder, wanted) {
        Ok(told) => tell_extraction(alloc, &told, text),
        Err(error) => Err(not_extracted(error)),
    }
}

/// Puts the files of a volume into a folder, on the device that has the volume, and tells of each entry, and how many
/// there are: once all that can be read is in the folder. The status is 0, or 1 where a file can't be read.
///
/// # Errors
/// `Refused` with what `extract` refuses, or where the device or memory fails; `Folder` where the folder fails; `Text`
/// where the text can't be written.
pub fn extract_on_device<D: Device, O: Folder, T: Write>(
    alloc: Global,
    volume: VolumeOptions,
    options: ExtractOptions,
    device: &mut D,
    folder: &mut O,
    text: &mut T,
) -> Result<u8, NotExtracted>
    requires units { HasUnitsOf volume.file_system (D.state device.old) }
    ensures reads { ReadsOn (D.state device.old) (D.state device.new) }
    ensures same { (O.state folder.new).honest ≡ (O.state folder.old).honest }
    ensures extracted { IsTrue (D.state device.old).honest → IfOk result (λ status. IsExtraction
        (plan_for volume options) (D.state device.old) (D.state device.new) (O.state folder.old) (O.state folder.new)
        (IsExtractTold status (T.contents text.old) (T.contents text.new))) }
    ensures refused { IsTrue (D.state device.old).honest → IfErr result (IsNotExtractedBy O.state O.may_fail
        (plan_for volume options) (D.state device.old) (D.state device.new) (O.state folder.old) (O.state folder.new)
        (T.contents text.old) (T.contents text.new)) }
{
    let Ok(format) = format_of(alloc, volume, Reserved::none(alloc)) else {
        return Err(NotExtracted::Refused(Reply::failed(Failure::Memory)));
    };
    let form = form_of(volume.file_system);
    match &format {
        VolumeFormat::Dos(dos) => { extract_by(alloc, device, dos, form, folder, options, text) }
        VolumeFormat::Prodos(prodos) => {
            extract_by(alloc, device, prodos, form, folder, options, text)
        }
    }
}
