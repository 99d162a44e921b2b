// The command that reads a file.
ghost use Rattle.std.specs.Prelude.{◌≡◌, ◌≢◌, ◌<◌, ◌≤◌, IfOk, IsTrue};
ghost use Rattle.file_formats.specs.FileNames.{name_view};
ghost use Rattle.a2_device.specs.Device.{OnlyReads};
ghost use Rattle.vol_check.specs.Failures.{FailsInFile};
ghost use Rattle.vol_format.specs.Fits.{Fits};
ghost use Rattle.vol_format.specs.Directory.{entries};
ghost use Rattle.file_cmds.specs.Refusal.{told_device};
ghost use Rattle.file_cmds.specs.Text.{IsEntryText, OwnFault, IsWholeTextOf};
ghost use Rattle.file_cmds.specs.Read.{IsTextAt, IsUnreadable, HasNoFile};

use crate::CmdError;
use crate::file_texts::{FileText, file_text};
use a2_device::Device;
use file_formats::{FileFormat, FileName, find};
use std::alloc::Allocator;
use vol_format::Format;

/// The whole text of the file of an entry.
pub(crate) fn whole_text<D: Device, F: Format, A: Allocator + Copy>(
    alloc: A,
    device: &mut D,
    format: &F,
    volume: &F::Volume,
    file: u32,
) -> Result<Vec<u8, A>, CmdError>
    requires fits { Fits (F.meaning format.now) (D.state device.old) }
    requires places { (F.directory format.now volume.now).places ≡ (D.state device.old).places }
    requires file { file < entries (F.directory format.now volume.now) }

    ensures device { OnlyReads (told_device result) (D.state device.old) (D.state device.new) }
    ensures found { result ≢ Err CmdError.NotFound }
    ensures text { IsTrue (D.state device.old).honest → IfOk result (λ text.
        IsWholeTextOf (F.meaning format.now) (F.directory format.now volume.now)
        (D.state device.old).store file text.items) }
    ensures check { IsTrue (D.state device.old).honest → result ≡ Err CmdError.Check
        → OwnFault (F.meaning format.now) (F.directory format.now volume.now) (D.state device.old).store file }
    ensures failed { IsTrue (D.state device.old).honest → IsTrue (told_device result)
        → FailsInFile (F.meaning format.now) (F.directory format.now volume.now)
        (D.state device.old) (D.state device.new) file }
{
    match file_text(alloc, device, format, volume, file)? {
        FileText::Whole(text) => Ok(text),
        FileText::Faulty => Err(CmdError::Check),
        FileText::Failed => Err(CmdError::Device),
    }
}

/// The text of the file of an entry of a volume that was read: the whole of its units, or its body alone. It reads the
/// file's own units, each once; what is wrong with other files, and what the map says, does not matter.
///
/// # Errors
/// `Check` where the file has a fault of its own; `Device` where the read of a unit of the file fails; `Memory`.
pub fn read_entry<D: Device, F: FileFormat, A: Allocator + Copy>(
    alloc: A,
    device: &mut D,
    format: &F,
    volume: &F::Volume,
    file: u32,
    whole: bool,
) -> Result<Vec<u8, A>, CmdError>
    requires fits { Fits (F.meaning format.now) (D.state device.old) }
    requires places { (F.directory format.now volume.now).places ≡ (D.state device.old).places }
    requires file { file < entries (F.directory format.now volume.now) }

    ensures device { OnlyReads (told_device result) (D.state device.old) (D.state device.new) }
    ensures found { result ≢ Err CmdError.NotFound }
    ensures text { IsTrue (D.state device.old).honest → IfOk result (λ text.
        IsEntryText (F.meaning format.now) (F.files format.now) (F.directory format.now volume.now)
        (D.state device.old).store file whole text.items) }
    ensures check { IsTrue (D.state device.old).honest → result ≡ Err CmdError.Check
        → OwnFault (F.meaning format.now) (F.directory format.now volume.now) (D.state device.old).store file }
    ensures failed { IsTrue (D.state device.old).honest → IsTrue (told_device result)
        → FailsInFile (F.meaning format.now) (F.directory format.now volume.now)
        (D.state device.old) (D.state device.new) file }
{
    let text = whole_text(alloc, device, format, volume, file)?;
    if whole {
        return Ok(text);
    }
    Ok(format.body(volume, file, text)?)
}

/// The text of the first file with a name: the whole of its units, or its body alone. It reads the header, the
/// directory, and the file's own units, each once; what is wrong with other files, and what the map says, does not
/// matter.
///
/// # Errors
/// `Check` where the header, the directory or the map's pointer has a fault, or the file has one of its own; `NotFound`
/// where no file has the name; `Device` where a read fails; `Memory`.
pub fn read<D: Device, F: FileFormat, A: Allocator + Copy>(
    alloc: A,
    device: &mut D,
    format: &F,
    name: FileName<'_>,
    whole: bool,
) -> Result<Vec<u8, A>, CmdError>
    requires fits { Fits (F.meaning format.now) (D.state device.old) }

    ensures device { OnlyReads (told_device result) (D.state device.old) (D.state device.new) }
    ensures text { IsTrue (D.state device.old).honest → IfOk result (λ text.
        IsTextAt (F.meaning format.now) (F.files format.now) (D.state device.old).store (name_view name.entry)
        whole text.items) }
    ensures check { IsTrue (D.state device.old).honest → result ≡ Err CmdError.Check
        → IsUnreadable (F.meaning format.now) (F.files format.now) (D.state device.old).store (name_view name.entry) }
    ensures not_found { IsTrue (D.state device.old).honest → result ≡ Err CmdError.NotFound
        → HasNoFile (F.meaning format.now) (F.files format.now) (D.state device.old).store (name_view name.entry) }
{
    let volume = format.volume(device)?;
    let Some(file) = find(format, &volume, name) else {
        return Err(CmdError::NotFound);
    };
    read_entry(alloc, device, format, &volume, file, whole)
}
