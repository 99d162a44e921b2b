// What is read of the file of an entry, where the reading is to go on whatever it is.
ghost use Rattle.std.specs.Prelude.{◌≡◌, ◌<◌, IfOk, IsTrue};
ghost use Rattle.a2_device.specs.Device.{OnlyReads};
ghost use Rattle.vol_check.specs.Failures.{FailsInFile};
ghost use Rattle.vol_format.specs.Directory.{entries};
ghost use Rattle.vol_format.specs.Fits.{Fits};
ghost use Rattle.file_cmds.specs.FileText.{IsFileText, has_failed};

use crate::each_file::VolumeFiles;
use a2_device::Device;
use std::alloc::{AllocError, Allocator, Global};
use vol_format::Format;

/// What is read of a file.
#[derive(Drop)]
pub enum FileText<A: Allocator = Global> {
    /// Its whole text.
    Whole(Vec<u8, A>),
    /// It has a fault of its own.
    Faulty,
    /// A unit of it could not be read.
    Failed,
}

/// The whole text of the file of an entry of a volume that was read, or why it has none. It reads the file's own units,
/// each once, up to the first that can't be read.
///
/// # Errors
/// Want of memory alone.
pub fn file_text<D: Device, F: Format, A: Allocator + Copy>(
    alloc: A,
    device: &mut D,
    format: &F,
    volume: &F::Volume,
    file: u32,
) -> Result<FileText<A>, AllocError>
    requires fits { Fits (F.meaning format.now) (D.state device.old) }
    requires places { (F.directory format.now volume.now).places ≡ (D.state device.old).places }
    requires file { file < entries (F.directory format.now volume.now) }

    ensures device { OnlyReads (has_failed result) (D.state device.old) (D.state device.new) }
    ensures text { IsTrue (D.state device.old).honest → IfOk result
        (IsFileText (F.meaning format.now) (F.directory format.now volume.now) (D.state device.old).store file) }
    ensures failed { IsTrue (D.state device.old).honest → IsTrue (has_failed result)
        → FailsInFile (F.meaning format.now) (F.directory format.now volume.now)
        (D.state device.old) (D.state device.new) file }
{
    let mut files = VolumeFiles::walked(alloc, device)?;
    files.text(alloc, device, format, volume, file)
}
