// What is read of the file of an entry.
ghost use Rattle.std.specs.Prelude.{◌≡◌, ◌<◌, IfOk, IsTrue};
ghost use Rattle.file_cmds.specs.EachFile.{AreFilesOf};
ghost use Rattle.file_cmds.specs.ReadingOn.{FailedInFile, ReadsOn};
ghost use Rattle.vol_format.specs.Directory.{entries};
ghost use Rattle.vol_format.specs.Fits.{Fits};
ghost use Rattle.volume_compare.specs.Contents.{volume_in};
ghost use Rattle.volume_extract.specs.Looked.{IsLooked};

use crate::opened::{Opened, is_folder};
use crate::tree_format::TreeFormat;
use a2_device::Device;
use file_cmds::{FileText, VolumeFiles};
use std::alloc::{AllocError, Global};

/// What an entry turned out to be.
#[derive(Drop)]
pub enum Looked {
    Folder,
    /// A file with this whole text.
    Whole(Vec<u8>),
    /// A file that can't be read.
    Unreadable,
}

/// What an entry is, and the whole text of a file.
///
/// # Errors
/// Want of memory alone.
pub fn look<D: Device, F: TreeFormat>(
    alloc: Global,
    device: &mut D,
    opened: &Opened<'_, F>,
    files: &mut VolumeFiles,
    entry: u32,
) -> Result<Looked, AllocError>
    requires fits { Fits (F.meaning opened.now.format.now) (D.state device.old) }
    requires places { (F.directory opened.now.format.now opened.now.volume).places ≡ (D.state device.old).places }
    requires entry { entry < entries (F.directory opened.now.format.now opened.now.volume) }
    requires opened { AreFilesOf (F.meaning opened.now.format.now)
        (F.directory opened.now.format.now opened.now.volume) (D.state device.old) files.old }

    ensures reads { ReadsOn (D.state device.old) (D.state device.new) }
    ensures kept { AreFilesOf (F.meaning opened.now.format.now)
        (F.directory opened.now.format.now opened.now.volume) (D.state device.new) files.new }
    ensures looked { IsTrue (D.state device.old).honest → IfOk result (IsLooked
        (volume_in opened.now.form (F.files opened.now.format.now) (F.meaning opened.now.format.now)
        (F.directory opened.now.format.now opened.now.volume) (D.state device.old).store)
        (FailedInFile (F.meaning opened.now.format.now) (F.directory opened.now.format.now opened.now.volume)
        (D.state device.old) (D.state device.new)) entry) }
{
    if is_folder(opened, entry) {
        return Ok(Looked::Folder);
    }
    let text = files.text(alloc, device, opened.format, &opened.volume, entry)?;
    match text {
        FileText::Whole(whole) => Ok(Looked::Whole(whole)),
        FileText::Faulty | FileText::Failed => Ok(Looked::Unreadable),
    }
}
