// The file that another one is to replace.
ghost use Rattle.std.specs.Prelude.{◌≡◌, ◌<◌, Err, IfErr, IfOk, IsTrue};
ghost use Rattle.a2_device.specs.Device.{OnlyReads};
ghost use Rattle.edit_formats.specs.Refusal.{told_device};
ghost use Rattle.edit_formats.specs.Renamed.{IsReadRefusal};
ghost use Rattle.file_cmds.specs.Text.{OwnFault};
ghost use Rattle.shop_changes.specs.Replaced.{IsAuxOf, IsReplaced};
ghost use Rattle.vol_format.specs.Accepted.{IsVolume};
ghost use Rattle.vol_format.specs.Directory.{entries};
ghost use Rattle.vol_format.specs.Fits.{Fits};

use a2_device::Device;
use edit_formats::{EditError, SavableFormat};
use file_cmds::{FileText, file_text, is_binary};
use file_formats::{FileName, ListEntry, address_of, find};
use std::alloc::Global;
use vol_check::check;
use vol_layout::PlaceForm;

/// What a new file takes over of the one that it replaces, where the words do not say it.
#[derive(Clone, Copy)]
pub struct ReplacedFile {
    pub kind: u8,
    /// The auxiliary type, of a binary file of DOS 3.3 its address; or the one that is said.
    pub aux: u16,
}

// The auxiliary type of a file, of a binary file of DOS 3.3 the address that its text begins with.
fn aux_of<D: Device, F: SavableFormat>(
    alloc: Global,
    device: &mut D,
    format: &F,
    form: PlaceForm,
    volume: &F::Volume,
    file: u32,
    entry: &ListEntry,
) -> Result<u16, EditError>
    requires fits { Fits (F.meaning format.now) (D.state device.old) }
    requires places { (F.directory format.now volume.now).places ≡ (D.state device.old).places }
    requires file { file < entries (F.directory format.now volume.now) }

    ensures device { OnlyReads (told_device result) (D.state device.old) (D.state device.new) }
    ensures refused { IfErr result IsReadRefusal }
    ensures aux { IsTrue (D.state device.old).honest → IfOk result (λ aux. IsAuxOf form (F.meaning format.now)
        (F.directory format.now volume.now) (D.state device.old).store file entry.now aux) }
    ensures check { IsTrue (D.state device.old).honest → result ≡ Err EditError.Check
        → OwnFault (F.meaning format.now) (F.directory format.now volume.now) (D.state device.old).store file }
{
    if !is_binary(form, entry) {
        return Ok(entry.aux);
    }
    match file_text(alloc, device, format, volume, file)? {
        FileText::Whole(text) => Ok(address_of(text.as_slice())),
        FileText::Faulty => Err(EditError::Check),
        FileText::Failed => Err(EditError::Device),
    }
}

/// What a new file takes over of the first file with its path; `None` where no file has it. The auxiliary type is the
/// one that is said, if one is, and then the file's text is not read.
///
/// # Errors
/// `Check` where the volume is not accepted; `Device` where a read fails; `Memory`.
pub fn find_replaced<D: Device, F: SavableFormat>(
    alloc: Global,
    device: &mut D,
    format: &F,
    form: PlaceForm,
    path: &[u8],
    said: Option<u16>,
) -> Result<Option<ReplacedFile>, EditError>
    requires fits { Fits (F.meaning format.now) (D.state device.old) }

    ensures device { OnlyReads (told_device result) (D.state device.old) (D.state device.new) }
    ensures refused { IfErr result IsReadRefusal }
    ensures replaced { IsTrue (D.state device.old).honest → IfOk result (IsReplaced form (F.meaning format.now)
        (F.files format.now) (D.state device.old).store path.now said) }
    ensures check { IsTrue (D.state device.old).honest → result ≡ Err EditError.Check
        → IsVolume (F.meaning format.now) (D.state device.old).store → ⊥ }
{
    let checked = check(alloc, device, format)?;
    let Some(file) = find(format, checked.volume(), FileName::Path(path)) else {
        return Ok(None);
    };
    let entry = format.list_entry(alloc, checked.volume(), file)?;
    let aux = match said {
        Some(aux) => aux,
        None => aux_of(alloc, device, format, form, checked.volume(), file, &entry)?,
    };
    Ok(Some(ReplacedFile {
        kind: entry.kind,
        aux,
    }))
}
