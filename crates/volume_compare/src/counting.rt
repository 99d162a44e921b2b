// How many bytes the files of the first volume have, where those of the second have too many.
ghost use Rattle.std.specs.Prelude.{◌≡◌, ◌≢◌, ◌<◌, ◌≤◌, ℕ, IfOk, IsTrue};
ghost use Rattle.a2_device.specs.Device.{DeviceState};
ghost use Rattle.file_cmds.specs.EachFile.{AreFilesOf};
ghost use Rattle.file_cmds.specs.ReadingOn.{FailedInFile, ReadsOn};
ghost use Rattle.vol_format.specs.Directory.{entries};
ghost use Rattle.vol_format.specs.Fits.{Fits};
ghost use Rattle.volume_compare.specs.Contents.{volume_in};
ghost use Rattle.volume_compare.specs.declared.error.CompareError.TheVariants.{TooLarge};
ghost use Rattle.volume_compare.specs.declared.finding.Side.TheVariants.{Second};
ghost use Rattle.volume_compare.specs.TooLarge.{IsCount, IsCountedTo, IsLarger, IsLargerBy};

use crate::content::content_of;
use crate::error::CompareError;
use crate::finding::Side;
use crate::looking::Volumes;
use a2_device::Device;
use file_cmds::VolumeFiles;
use file_formats::FileFormat;
use std::alloc::{AllocError, Global};
use vol_format::{Format, Link};

// How many bytes the text of a file of the first volume has: none where it can't be read, and of a directory.
fn bytes_of<D: Device, F: FileFormat>(
    alloc: Global,
    first: &mut D,
    volumes: &Volumes<'_, F>,
    files: &mut VolumeFiles,
    file: u32,
) -> Result<u64, AllocError>
    requires fits { Fits (F.meaning volumes.now.format.now) (D.state first.old) }
    requires places { (F.directory volumes.now.format.now volumes.now.first).places ≡ (D.state first.old).places }
    requires file { file < entries (F.directory volumes.now.format.now volumes.now.first) }
    requires opened { AreFilesOf (F.meaning volumes.now.format.now)
        (F.directory volumes.now.format.now volumes.now.first) (D.state first.old) files.old }

    ensures reads { ReadsOn (D.state first.old) (D.state first.new) }
    ensures kept { AreFilesOf (F.meaning volumes.now.format.now)
        (F.directory volumes.now.format.now volumes.now.first) (D.state first.new) files.new }
    ensures count { IsTrue (D.state first.old).honest → IfOk result (IsCount
        (volume_in volumes.now.form (F.files volumes.now.format.now) (F.meaning volumes.now.format.now)
        (F.directory volumes.now.format.now volumes.now.first) (D.state first.old).store)
        (FailedInFile (F.meaning volumes.now.format.now) (F.directory volumes.now.format.now volumes.now.first)
        (D.state first.old) (D.state first.new)) file) }
{
    let (format, form) = (volumes.format, volumes.form);
    if matches!(format.root(&volumes.first, file), Link::Directory) {
        return Ok(0);
    }
    let content = content_of(alloc, first, format, form, &volumes.first, files, file)?;
    match content {
        Some(content) => Ok(content.bytes()),
        None => Ok(0),
    }
}

// Which volume is told to have too many bytes where the second has: the first, if its files from an entry on have more
// than may be read yet.
fn too_large<D: Device, F: FileFormat>(
    alloc: Global,
    first: &mut D,
    volumes: &Volumes<'_, F>,
    files: &mut VolumeFiles,
    left: u64,
    from: u32,
) -> Result<Side, AllocError>
    requires fits { Fits (F.meaning volumes.now.format.now) (D.state first.old) }
    requires places { (F.directory volumes.now.format.now volumes.now.first).places ≡ (D.state first.old).places }
    requires from { from ≤ entries (F.directory volumes.now.format.now volumes.now.first) }
    requires opened { AreFilesOf (F.meaning volumes.now.format.now)
        (F.directory volumes.now.format.now volumes.now.first) (D.state first.old) files.old }

    ensures reads { ReadsOn (D.state first.old) (D.state first.new) }
    ensures kept { AreFilesOf (F.meaning volumes.now.format.now)
        (F.directory volumes.now.format.now volumes.now.first) (D.state first.new) files.new }
    ensures side { (start : DeviceState) (most : ℕ) → IsTrue start.honest → ReadsOn start (D.state first.old)
        → IsCountedTo (volume_in volumes.now.form (F.files volumes.now.format.now) (F.meaning volumes.now.format.now)
        (F.directory volumes.now.format.now volumes.now.first) start.store)
        (FailedInFile (F.meaning volumes.now.format.now) (F.directory volumes.now.format.now volumes.now.first)
        start (D.state first.old)) most from left
        → IfOk result (IsLarger
        (volume_in volumes.now.form (F.files volumes.now.format.now) (F.meaning volumes.now.format.now)
        (F.directory volumes.now.format.now volumes.now.first) start.store)
        (FailedInFile (F.meaning volumes.now.format.now) (F.directory volumes.now.format.now volumes.now.first)
        start (D.state first.new)) most) }
{
    let mut rest = left;
    for file in from..volumes.format.entries(&volumes.first) {
        let bytes = bytes_of(alloc, first, volumes, files, file)?;
        let Some(less) = rest.checked_sub(bytes) else {
            return Ok(Side::First);
        };
        rest = less;
    }
    Ok(Side::Second)
}

/// Why two volumes are not compared where a file of the first was not told of for this: where the second has too many
/// bytes, it is told so only if the first has no more than may be read, so many of which are left from an entry on.
pub fn refusal_of<D: Device, F: FileFormat>(
    alloc: Global,
    first: &mut D,
    volumes: &Volumes<'_, F>,
    files: &mut VolumeFiles,
    left: u64,
    from: u32,
    error: CompareError,
) -> CompareError
    requires fits { Fits (F.meaning volumes.now.format.now) (D.state first.old) }
    requires places { (F.directory volumes.now.format.now volumes.now.first).places ≡ (D.state first.old).places }
    requires from { from ≤ entries (F.directory volumes.now.format.now volumes.now.first) }
    requires opened { AreFilesOf (F.meaning volumes.now.format.now)
        (F.directory volumes.now.format.now volumes.now.first) (D.state first.old) files.old }

    ensures reads { ReadsOn (D.state first.old) (D.state first.new) }
    ensures kept { AreFilesOf (F.meaning volumes.now.format.now)
        (F.directory volumes.now.format.now volumes.now.first) (D.state first.new) files.new }
    ensures other { error ≢ TooLarge Second → result ≡ error }
    ensures side { (start : DeviceState) (most : ℕ) → IsTrue start.honest → ReadsOn start (D.state first.old)
        → IsCountedTo (volume_in volumes.now.form (F.files volumes.now.format.now) (F.meaning volumes.now.format.now)
        (F.directory volumes.now.format.now volumes.now.first) start.store)
        (FailedInFile (F.meaning volumes.now.format.now) (F.directory volumes.now.format.now volumes.now.first)
        start (D.state first.old)) most from left
        → error ≡ TooLarge Second → IsLargerBy
        (volume_in volumes.now.form (F.files volumes.now.format.now) (F.meaning volumes.now.format.now)
        (F.directory volumes.now.format.now volumes.now.first) start.store)
        (FailedInFile (F.meaning volumes.now.format.now) (F.directory volumes.now.format.now volumes.now.first)
        start (D.state first.new)) most result }
{
    if error != CompareError::TooLarge(Side::Second) {
        return error;
    }
    match too_large(alloc, first, volumes, files, left, from) {
        Ok(side) => CompareError::TooLarge(side),
        Err(_) => CompareError::Memory,
    }
}
