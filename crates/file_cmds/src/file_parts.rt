// The parts of the file of an entry, of a volume of which many files are read.
ghost use Rattle.std.specs.Prelude.{◌≡◌, ◌<◌, IfOk, IsTrue};
ghost use Rattle.a2_device.specs.Device.{OnlyReads};
ghost use Rattle.vol_check.specs.Failures.{FailsInFile};
ghost use Rattle.vol_check.specs.FileWalker.{HasTables};
ghost use Rattle.vol_format.specs.Directory.{entries};
ghost use Rattle.vol_format.specs.Fits.{Fits};
ghost use Rattle.file_cmds.specs.EachFile.{AreFilesOf};
ghost use Rattle.file_cmds.specs.FileParts.{IsFileParts, StandAtPlaces, has_failed};

use crate::each_file::{VolumeFiles, parts_of};
use crate::one_file::OneFile;
use a2_device::{Device, Part, Stop};
use std::alloc::{AllocError, Allocator, Global};
use vol_check::FileWalker;
use vol_format::Format;

/// What is read of the parts of a file.
#[derive(Drop)]
pub enum FileParts<A: Allocator = Global> {
    /// Its parts, in order.
    Whole(Vec<Part, A>),
    /// It has a fault of its own.
    Faulty,
    /// A unit of it that has pointers could not be read.
    Failed,
}

// The parts of the file of an entry, which are walked over for it.
fn walked_parts<D: Device, F: Format, A: Allocator + Copy>(
    alloc: A,
    device: &mut D,
    walker: &mut FileWalker<A>,
    format: &F,
    volume: &F::Volume,
    file: u32,
) -> Result<FileParts<A>, AllocError>
    requires fits { Fits (F.meaning format.now) (D.state device.old) }
    requires places { (F.directory format.now volume.now).places ≡ (D.state device.old).places }
    requires file { file < entries (F.directory format.now volume.now) }
    requires tables { HasTables (D.state device.old) walker.old }

    ensures device { OnlyReads (has_failed result) (D.state device.old) (D.state device.new) }
    ensures parts { IsTrue (D.state device.old).honest → IfOk result
        (IsFileParts (F.meaning format.now) (F.directory format.now volume.now) (D.state device.old).store file) }
    ensures within { IfOk result (StandAtPlaces (D.state device.old).places) }
    ensures failed { IsTrue (D.state device.old).honest → IsTrue (has_failed result)
        → FailsInFile (F.meaning format.now) (F.directory format.now volume.now)
        (D.state device.old) (D.state device.new) file }
    ensures tables { HasTables (D.state device.new) walker.new }
{
    let one = OneFile {
        format,
        volume,
        file,
        places: device.places(),
    };
    match walker.walk(device, &one, &(), file) {
        Ok(true) => Ok(FileParts::Whole(Vec::from_slice(alloc, walker.parts())?)),
        Ok(false) => Ok(FileParts::Faulty),
        Err(Stop::Device) => Ok(FileParts::Failed),
        Err(Stop::Memory) => Err(AllocError),
    }
}

impl<A: Allocator + Copy> VolumeFiles<A> {
    /// The parts of the file of an entry, or why they are not known. Of a volume that was accepted it reads nothing,
    /// else the file's own units that have pointers, each once, up to the first that can't be read.
    ///
    /// # Errors
    /// Want of memory alone.
    pub fn parts<D: Device, F: Format>(
        &mut self,
        alloc: A,
        device: &mut D,
        format: &F,
        volume: &F::Volume,
        file: u32,
    ) -> Result<FileParts<A>, AllocError>
        requires fits { Fits (F.meaning format.now) (D.state device.old) }
        requires places { (F.directory format.now volume.now).places ≡ (D.state device.old).places }
        requires file { file < entries (F.directory format.now volume.now) }
        requires opened { AreFilesOf (F.meaning format.now) (F.directory format.now volume.now)
            (D.state device.old) self.old }

        ensures device { OnlyReads (has_failed result) (D.state device.old) (D.state device.new) }
        ensures parts { IsTrue (D.state device.old).honest → IfOk result
            (IsFileParts (F.meaning format.now) (F.directory format.now volume.now) (D.state device.old).store file) }
        ensures within { IfOk result (StandAtPlaces (D.state device.old).places) }
        ensures failed { IsTrue (D.state device.old).honest → IsTrue (has_failed result)
            → FailsInFile (F.meaning format.now) (F.directory format.now volume.now)
            (D.state device.old) (D.state device.new) file }
        ensures kept { AreFilesOf (F.meaning format.now) (F.directory format.now volume.now)
            (D.state device.new) self.new }
    {
        if let Some(parts) = &self.parts {
            let run = parts_of(parts.as_slice(), file);
            return Ok(FileParts::Whole(Vec::from_slice(alloc, run)?));
        }
        match &mut self.walker {
            Some(walker) => walked_parts(alloc, device, walker, format, volume, file),
            None => unreachable!(),
        }
    }
}
