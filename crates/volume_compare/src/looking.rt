// What is found of one file of two volumes.
ghost use Rattle.std.specs.Prelude.{◌≡◌, ◌<◌, IfOk, IsTrue};
ghost use Rattle.a2_device.specs.Device.{DeviceState};
ghost use Rattle.file_cmds.specs.EachFile.{AreFilesOf};
ghost use Rattle.file_cmds.specs.ReadingOn.{ReadsOn};
ghost use Rattle.vol_format.specs.Directory.{entries};
ghost use Rattle.vol_format.specs.Fits.{Fits};
ghost use Rattle.volume_compare.specs.Findings.{IsFound, IsFoundAlone, compared_in};
ghost use Rattle.volume_compare.specs.Opened.{AreReaders};
ghost use Rattle.volume_compare.specs.Pairs.{ArePairs, paths_of};

use crate::content::{content_of, judge};
use crate::finding::{Found, Side};
use crate::pairing::Pairs;
use a2_device::Device;
use file_cmds::VolumeFiles;
use file_formats::FileFormat;
use std::alloc::{AllocError, Global};
use vol_layout::PlaceForm;

/// Two volumes that were read, and which of their files are partners.
#[derive(Drop)]
pub struct Volumes<'a, F: FileFormat> {
    pub format: &'a F,
    /// What their places are called.
    pub form: PlaceForm,
    pub first: F::Volume,
    pub second: F::Volume,
    pub pairs: Pairs,
}

/// What reads the files of both.
#[derive(Drop)]
pub struct Readers {
    pub first: VolumeFiles,
    pub second: VolumeFiles,
}

/// What is found of the file of an entry of the first volume.
///
/// # Errors
/// Want of memory alone.
pub fn look_at<D: Device, E: Device, F: FileFormat>(
    alloc: Global,
    first: &mut D,
    second: &mut E,
    volumes: &Volumes<'_, F>,
    readers: &mut Readers,
    file: u32,
) -> Result<Found, AllocError>
    requires fits { Fits (F.meaning volumes.now.format.now) (D.state first.old) }
    requires other_fits { Fits (F.meaning volumes.now.format.now) (E.state second.old) }
    requires file { file < entries (F.directory volumes.now.format.now volumes.now.first) }
    requires readers { AreReaders (F.meaning volumes.now.format.now)
        (F.directory volumes.now.format.now volumes.now.first) (F.directory volumes.now.format.now volumes.now.second)
        (D.state first.old) (E.state second.old) readers.old }
    requires pairs { ArePairs
        (paths_of (F.files volumes.now.format.now) (F.directory volumes.now.format.now volumes.now.first))
        (paths_of (F.files volumes.now.format.now) (F.directory volumes.now.format.now volumes.now.second))
        volumes.now.pairs.partners.items volumes.now.pairs.taken.items }

    ensures reads { ReadsOn (D.state first.old) (D.state first.new) }
    ensures other_reads { ReadsOn (E.state second.old) (E.state second.new) }
    ensures kept { AreReaders (F.meaning volumes.now.format.now) (F.directory volumes.now.format.now volumes.now.first)
        (F.directory volumes.now.format.now volumes.now.second) (D.state first.new) (E.state second.new) readers.new }
    ensures found { IsTrue (D.state first.old).honest → IsTrue (E.state second.old).honest → IfOk result (IsFound
        (compared_in volumes.now.form (F.files volumes.now.format.now) (F.meaning volumes.now.format.now)
        (F.directory volumes.now.format.now volumes.now.first) (F.directory volumes.now.format.now volumes.now.second)
        (D.state first.old) (D.state first.new) (E.state second.old) (E.state second.new)) file) }
{
    let (format, form) = (volumes.format, volumes.form);
    let content = content_of(
        alloc,
        first,
        format,
        form,
        &volumes.first,
        &mut readers.first,
        file,
    )?;
    let Some(content) = content else {
        return Ok(Found::unreadable(Side::First, 0));
    };
    let bytes = content.bytes();
    let Some(partner) = volumes.pairs.partners[file as usize] else {
        return Ok(Found::only_first(bytes));
    };
    let other = content_of(
        alloc,
        second,
        format,
        form,
        &volumes.second,
        &mut readers.second,
        partner,
    )?;
    match other {
        Some(other) => Ok(Found::both(&content, &other)),
        None => Ok(Found::unreadable(Side::Second, bytes)),
    }
}

/// What is found of the file of an entry of the second volume that has no partner.
///
/// # Errors
/// Want of memory alone.
pub fn look_at_other<E: Device, F: FileFormat>(
    alloc: Global,
    second: &mut E,
    volumes: &Volumes<'_, F>,
    files: &mut VolumeFiles,
    other: u32,
) -> Result<Found, AllocError>
    requires fits { Fits (F.meaning volumes.now.format.now) (E.state second.old) }
    requires places { (F.directory volumes.now.format.now volumes.now.second).places ≡ (E.state second.old).places }
    requires file { other < entries (F.directory volumes.now.format.now volumes.now.second) }
    requires opened { AreFilesOf (F.meaning volumes.now.format.now)
        (F.directory volumes.now.format.now volumes.now.second) (E.state second.old) files.old }

    ensures reads { ReadsOn (E.state second.old) (E.state second.new) }
    ensures kept { AreFilesOf (F.meaning volumes.now.format.now) (F.directory volumes.now.format.now volumes.now.second)
        (E.state second.new) files.new }
    ensures found { (first first_now : DeviceState) → IsTrue (E.state second.old).honest → IfOk result (IsFoundAlone
        (compared_in volumes.now.form (F.files volumes.now.format.now) (F.meaning volumes.now.format.now)
        (F.directory volumes.now.format.now volumes.now.first) (F.directory volumes.now.format.now volumes.now.second)
        first first_now (E.state second.old) (E.state second.new)) other) }
{
    let (format, form) = (volumes.format, volumes.form);
    let content = content_of(alloc, second, format, form, &volumes.second, files, other)?;
    match content {
        Some(content) => Ok(Found::only_second(content.bytes())),
        None => Ok(Found::unreadable(Side::Second, 0)),
    }
}
