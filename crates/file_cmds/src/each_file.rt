// The texts of many files of one volume.
ghost use Rattle.std.specs.Prelude.{
  ◌≡◌,
  ◌<◌,
  ◌==◌,
  ◌⊎◌,
  ℕ,
  None,
  filter,
  IfOk,
  IsTrue,
};
ghost use Rattle.std.specs.List.Sorted.{IsNonDecreasingBy};
ghost use Rattle.a2_device.specs.Device.{OnlyReads};
ghost use Rattle.a2_device.specs.declared.part.Part.{Part};
ghost use Rattle.vol_check.specs.Failures.{FailsInFile};
ghost use Rattle.vol_format.specs.Accepted.{IsAccepted};
ghost use Rattle.vol_format.specs.Directory.{entries};
ghost use Rattle.vol_format.specs.Fits.{Fits};
ghost use Rattle.file_cmds.specs.EachFile.{AreFilesOf, HasWalker, IsTextBy, StandWithin};
ghost use Rattle.file_cmds.specs.FileText.{IsFileText, has_failed};
ghost use Rattle.file_cmds.specs.ReadingOn.{FailedBetween, FailsAmong, ReadsOn};

use crate::file_parts::FileParts;
use crate::file_texts::FileText;
use crate::known_volume::KnownVolume;
use crate::text::text_of;
use a2_device::{Device, Part, Stop};
use std::alloc::{AllocError, Allocator, Global};
use vol_check::{CheckError, FileWalker, check};
use vol_format::Format;

/// A volume of which many files are read. Where the checker accepts it, each file is read by its own run of the parts
/// of all files, else by a walk of its own, on tables that are kept.
pub struct VolumeFiles<A: Allocator = Global> {
    pub(crate) parts: Option<Vec<Part, A>>,
    pub(crate) walker: Option<FileWalker<A>>,
}

impl<A: Allocator> Drop for VolumeFiles<A> {
    fn drop(self) {
        let VolumeFiles {
            parts: _,
            walker: _,
        } = self;
    }
}

// The parts of the file of an entry, out of those of all files in their order.
pub(crate) fn parts_of(parts: &[Part], file: u32) -> &[Part]
    ensures within { (places : ℕ) → StandWithin places parts.now → StandWithin places result.now }
    ensures run { IsNonDecreasingBy (λ (part : Part). part.file) parts.now
        → result.now ≡ filter (λ (part : Part). part.file == file) parts.now }
{
    let start = parts.partition_point(|part| part.file < file);
    let later = &parts[start..];
    let count = later.partition_point(|part| part.file <= file);
    &later[..count]
}

// What is read of a file that has these parts and no fault of its own.
fn text_by<D: Device, A: Allocator + Copy>(
    alloc: A,
    device: &mut D,
    parts: &[Part],
) -> Result<FileText<A>, AllocError>
    requires { StandWithin (D.state device.old).places parts.now }

    ensures device { OnlyReads (has_failed result) (D.state device.old) (D.state device.new) }
    ensures text { IsTrue (D.state device.old).honest
        → IfOk result (IsTextBy (D.state device.old).unit_size (D.state device.old).store parts.now) }
    ensures failed { IsTrue (D.state device.old).honest → IsTrue (has_failed result)
        → FailsAmong parts.now (D.state device.old) (D.state device.new) }
{
    match text_of(alloc, device, parts) {
        Ok(text) => Ok(FileText::Whole(text)),
        Err(Stop::Device) => Ok(FileText::Failed),
        Err(Stop::Memory) => Err(AllocError),
    }
}

impl<A: Allocator + Copy> VolumeFiles<A> {
    /// Files of which no parts are known.
    ///
    /// # Errors
    /// Want of memory alone.
    pub(crate) fn walked<D: Device>(alloc: A, device: &D) -> Result<VolumeFiles<A>, AllocError>
        ensures parts { IfOk result (λ files. files.parts ≡ None) }
        ensures walker { IfOk result (λ files. HasWalker (D.state device.now) None files.walker) }
    {
        Ok(VolumeFiles {
            parts: None,
            walker: Some(FileWalker::new(alloc, device)?),
        })
    }

    /// Checks a volume that was read. It reads the unit of each part that has pointers, up to the first that can't be
    /// read.
    ///
    /// # Errors
    /// Want of memory alone.
    pub fn open<D: Device, F: Format>(
        alloc: A,
        device: &mut D,
        format: &F,
        volume: &F::Volume,
    ) -> Result<VolumeFiles<A>, AllocError>
        requires fits { Fits (F.meaning format.now) (D.state device.old) }
        requires places { (F.directory format.now volume.now).places ≡ (D.state device.old).places }

        ensures reads { ReadsOn (D.state device.old) (D.state device.new) }
        ensures opened { IfOk result (AreFilesOf (F.meaning format.now) (F.directory format.now volume.now)
            (D.state device.old)) }
        ensures none { IsTrue (D.state device.old).honest → IfOk result (λ files. files.parts ≡ None
            → (IsAccepted (F.meaning format.now) (F.directory format.now volume.now) (D.state device.old).store → ⊥)
            ⊎ FailedBetween (D.state device.old) (D.state device.new)) }
    {
        match check(alloc, device, &KnownVolume { format, volume }) {
            Ok(checked) => {
                let (_, parts, _, _) = checked.into_parts();
                Ok(VolumeFiles {
                    parts: Some(parts),
                    walker: None,
                })
            }
            Err(CheckError::Faults(_)) => VolumeFiles::walked(alloc, device),
            Err(CheckError::Device) => VolumeFiles::walked(alloc, device),
            Err(CheckError::Memory) => Err(AllocError),
        }
    }

    /// The whole text of the file of an entry, or why it has none. It reads the file's own units, each once, up to the
    /// first that can't be read; of a volume that was accepted those of its body alone.
    ///
    /// # Errors
    /// Want of memory alone.
    pub fn text<D: Device, F: Format>(
        &mut self,
        alloc: A,
        device: &mut D,
        format: &F,
        volume: &F::Volume,
        file: u32,
    ) -> Result<FileText<A>, AllocError>
        requires fits { Fits (F.meaning format.now) (D.state device.old) }
        requires places { (F.directory format.now volume.now).places ≡ (D.state device.old).places }
        requires file { file < entries (F.directory format.now volume.now) }
        requires opened { AreFilesOf (F.meaning format.now) (F.directory format.now volume.now)
            (D.state device.old) self.old }

        ensures device { OnlyReads (has_failed result) (D.state device.old) (D.state device.new) }
        ensures text { IsTrue (D.state device.old).honest → IfOk result
            (IsFileText (F.meaning format.now) (F.directory format.now volume.now) (D.state device.old).store file) }
        ensures failed { IsTrue (D.state device.old).honest → IsTrue (has_failed result)
            → FailsInFile (F.meaning format.now) (F.directory format.now volume.now)
            (D.state device.old) (D.state device.new) file }
        ensures kept { AreFilesOf (F.meaning format.now) (F.directory format.now volume.now)
            (D.state device.new) self.new }
    {
        match self.parts(alloc, device, format, volume, file)? {
            FileParts::Whole(parts) => text_by(alloc, device, parts.as_slice()),
            FileParts::Faulty => Ok(FileText::Faulty),
            FileParts::Failed => Ok(FileText::Failed),
        }
    }
}
