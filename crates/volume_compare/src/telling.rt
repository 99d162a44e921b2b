// What is told of all files of two volumes, one after the other.
ghost use Rattle.std.specs.Prelude.{◌≡◌, ◌<◌, ◌+◌, ◌-◌, ◌^◌, ◌++◌, ℕ, IfErr, IfOk, IsTrue, List, OnOk, Option, length};
ghost use Rattle.a2_device.specs.Device.{DeviceState};
ghost use Rattle.file_cmds.specs.EachFile.{AreFilesOf};
ghost use Rattle.file_cmds.specs.ReadingOn.{ReadsOn};
ghost use Rattle.vol_format.specs.Directory.{entries};
ghost use Rattle.vol_format.specs.Fits.{Fits};
ghost use Rattle.volume_compare.specs.CompareText.{AreAtMost};
ghost use Rattle.volume_compare.specs.Findings.{AreToldAloneUpTo, AreToldUpTo, IsTold, IsToldAlone, Told, compared_in};
ghost use Rattle.volume_compare.specs.Opened.{AreReaders};
ghost use Rattle.volume_compare.specs.Pairs.{ArePairs, paths_of};
ghost use Rattle.volume_compare.specs.Progress.{IsOverBehind, IsProgress, IsToldBehind, IsToldTo, TellsNext};
ghost use Rattle.volume_compare.specs.TooLarge.{IsTooLarge};

use crate::counting::refusal_of;
use crate::error::CompareError;
use crate::looking::{Readers, Volumes, look_at, look_at_other};
use crate::paths::file_path;
use crate::progress::Progress;
use a2_device::Device;
use file_cmds::VolumeFiles;
use file_formats::FileFormat;
use std::alloc::{AllocError, Global};
use vol_format::Format;

// Tells what is found of the file of an entry of the first volume.
fn tell_next<D: Device, E: Device, F: FileFormat>(
    alloc: Global,
    first: &mut D,
    second: &mut E,
    volumes: &Volumes<'_, F>,
    readers: &mut Readers,
    file: u32,
    progress: &mut Progress,
) -> Result<(), CompareError>
    requires fits { Fits (F.meaning volumes.now.format.now) (D.state first.old) }
    requires other_fits { Fits (F.meaning volumes.now.format.now) (E.state second.old) }
    requires file { file < entries (F.directory volumes.now.format.now volumes.now.first) }
    requires readers { AreReaders (F.meaning volumes.now.format.now)
        (F.directory volumes.now.format.now volumes.now.first) (F.directory volumes.now.format.now volumes.now.second)
        (D.state first.old) (E.state second.old) readers.old }
    requires pairs { ArePairs
        (paths_of (F.files volumes.now.format.now) (F.directory volumes.now.format.now volumes.now.first))
        (paths_of (F.files volumes.now.format.now) (F.directory volumes.now.format.now volumes.now.second))
        volumes.now.pairs.partners.items volumes.now.pairs.taken.items }
    requires few { AreAtMost progress.old.report.totals (2 ^ 64 - 2) }

    ensures reads { ReadsOn (D.state first.old) (D.state first.new) }
    ensures other_reads { ReadsOn (E.state second.old) (E.state second.new) }
    ensures kept { AreReaders (F.meaning volumes.now.format.now)
        (F.directory volumes.now.format.now volumes.now.first) (F.directory volumes.now.format.now volumes.now.second)
        (D.state first.new) (E.state second.new) readers.new }
    ensures all { progress.new.all ≡ progress.old.all }
    ensures few { (most : ℕ) → AreAtMost progress.old.report.totals most
        → OnOk result (AreAtMost progress.new.report.totals (most + 1)) }
    ensures told { TellsNext (IsTrue (D.state first.old).honest × IsTrue (E.state second.old).honest)
        (IsTold (compared_in volumes.now.form (F.files volumes.now.format.now) (F.meaning volumes.now.format.now)
        (F.directory volumes.now.format.now volumes.now.first) (F.directory volumes.now.format.now volumes.now.second)
        (D.state first.old) (D.state first.new) (E.state second.old) (E.state second.new)) file)
        volumes.now.form progress.old progress.new result }
{
    let Some(path) = file_path(alloc, volumes.format, &volumes.first, file)? else {
        return Ok(());
    };
    let found = look_at(alloc, first, second, volumes, readers, file)?;
    progress.tell(volumes.form, path.as_bytes(), found)
}

/// What was told of the files of the first volume, and what reads those of the second on.
#[derive(Drop)]
pub struct Begun {
    pub progress: Progress,
    pub files: VolumeFiles,
}

// What reads the files of two volumes.
fn open_readers<D: Device, E: Device, F: FileFormat>(
    alloc: Global,
    first: &mut D,
    second: &mut E,
    volumes: &Volumes<'_, F>,
) -> Result<Readers, AllocError>
    requires fits { Fits (F.meaning volumes.now.format.now) (D.state first.old) }
    requires other_fits { Fits (F.meaning volumes.now.format.now) (E.state second.old) }
    requires places { (F.directory volumes.now.format.now volumes.now.first).places ≡ (D.state first.old).places }
    requires other_places { (F.directory volumes.now.format.now volumes.now.second).places
        ≡ (E.state second.old).places }

    ensures reads { ReadsOn (D.state first.old) (D.state first.new) }
    ensures other_reads { ReadsOn (E.state second.old) (E.state second.new) }
    ensures readers { IfOk result (AreReaders (F.meaning volumes.now.format.now)
        (F.directory volumes.now.format.now volumes.now.first) (F.directory volumes.now.format.now volumes.now.second)
        (D.state first.new) (E.state second.new)) }
{
    let first_files = VolumeFiles::open(alloc, first, volumes.format, &volumes.first)?;
    let second_files = VolumeFiles::open(alloc, second, volumes.format, &volumes.second)?;
    Ok(Readers {
        first: first_files,
        second: second_files,
    })
}

/// Tells what is found of the files of the first volume, in directory order.
///
/// # Errors
/// `TooLarge` where the files of a volume have more bytes than may be read; `Memory`.
pub fn tell_first<D: Device, E: Device, F: FileFormat>(
    alloc: Global,
    first: &mut D,
    second: &mut E,
    volumes: &Volumes<'_, F>,
    all: bool,
    most: u64,
) -> Result<Begun, CompareError>
    requires fits { Fits (F.meaning volumes.now.format.now) (D.state first.old) }
    requires other_fits { Fits (F.meaning volumes.now.format.now) (E.state second.old) }
    requires places { (F.directory volumes.now.format.now volumes.now.first).places ≡ (D.state first.old).places }
    requires other_places { (F.directory volumes.now.format.now volumes.now.second).places
        ≡ (E.state second.old).places }
    requires pairs { ArePairs
        (paths_of (F.files volumes.now.format.now) (F.directory volumes.now.format.now volumes.now.first))
        (paths_of (F.files volumes.now.format.now) (F.directory volumes.now.format.now volumes.now.second))
        volumes.now.pairs.partners.items volumes.now.pairs.taken.items }

    ensures reads { ReadsOn (D.state first.old) (D.state first.new) }
    ensures other_reads { ReadsOn (E.state second.old) (E.state second.new) }
    ensures kept { IfOk result (λ begun. AreFilesOf (F.meaning volumes.now.format.now)
        (F.directory volumes.now.format.now volumes.now.second) (E.state second.new) begun.files) }
    ensures all { IfOk result (λ begun. begun.progress.all ≡ all) }
    ensures few { IfOk result (λ begun. AreAtMost begun.progress.report.totals (2 ^ 32)) }
    ensures told { IfOk result (λ begun. IsToldTo
        (IsTrue (D.state first.old).honest × IsTrue (E.state second.old).honest)
        (AreToldUpTo (compared_in volumes.now.form (F.files volumes.now.format.now) (F.meaning volumes.now.format.now)
        (F.directory volumes.now.format.now volumes.now.first) (F.directory volumes.now.format.now volumes.now.second)
        (D.state first.old) (D.state first.new) (E.state second.old) (E.state second.new))
        (entries (F.directory volumes.now.format.now volumes.now.first)))
        volumes.now.form most (entries (F.directory volumes.now.format.now volumes.now.first)) begun.progress) }
    ensures over { IsTrue (D.state first.old).honest → IsTrue (E.state second.old).honest → IfErr result (IsTooLarge
        (compared_in volumes.now.form (F.files volumes.now.format.now) (F.meaning volumes.now.format.now)
        (F.directory volumes.now.format.now volumes.now.first) (F.directory volumes.now.format.now volumes.now.second)
        (D.state first.old) (D.state first.new) (E.state second.old) (E.state second.new)) most) }
{
    let mut readers = open_readers(alloc, first, second, volumes)?;
    let mut progress = Progress::new(alloc, all, most);
    for file in 0..volumes.format.entries(&volumes.first) {
        let told = tell_next(
            alloc,
            first,
            second,
            volumes,
            &mut readers,
            file,
            &mut progress,
        );
        if let Err(error) = told {
            let left = progress.left.first;
            return Err(refusal_of(
                alloc,
                first,
                volumes,
                &mut readers.first,
                left,
                file + 1,
                error,
            ));
        }
    }
    Ok(Begun {
        progress,
        files: readers.second,
    })
}

// Tells what is found of the file of an entry of the second volume that has no partner.
fn tell_other<E: Device, F: FileFormat>(
    alloc: Global,
    second: &mut E,
    volumes: &Volumes<'_, F>,
    files: &mut VolumeFiles,
    other: u32,
    progress: &mut Progress,
) -> Result<(), CompareError>
    requires fits { Fits (F.meaning volumes.now.format.now) (E.state second.old) }
    requires places { (F.directory volumes.now.format.now volumes.now.second).places ≡ (E.state second.old).places }
    requires file { other < entries (F.directory volumes.now.format.now volumes.now.second) }
    requires opened { AreFilesOf (F.meaning volumes.now.format.now)
        (F.directory volumes.now.format.now volumes.now.second) (E.state second.old) files.old }
    requires pairs { ArePairs
        (paths_of (F.files volumes.now.format.now) (F.directory volumes.now.format.now volumes.now.first))
        (paths_of (F.files volumes.now.format.now) (F.directory volumes.now.format.now volumes.now.second))
        volumes.now.pairs.partners.items volumes.now.pairs.taken.items }
    requires few { AreAtMost progress.old.report.totals (2 ^ 64 - 2) }

    ensures reads { ReadsOn (E.state second.old) (E.state second.new) }
    ensures kept { AreFilesOf (F.meaning volumes.now.format.now)
        (F.directory volumes.now.format.now volumes.now.second) (E.state second.new) files.new }
    ensures all { progress.new.all ≡ progress.old.all }
    ensures few { (most : ℕ) → AreAtMost progress.old.report.totals most
        → OnOk result (AreAtMost progress.new.report.totals (most + 1)) }
    ensures told { (first first_now : DeviceState) → TellsNext (IsTrue (E.state second.old).honest)
        (IsToldAlone (compared_in volumes.now.form (F.files volumes.now.format.now) (F.meaning volumes.now.format.now)
        (F.directory volumes.now.format.now volumes.now.first) (F.directory volumes.now.format.now volumes.now.second)
        first first_now (E.state second.old) (E.state second.new)) other)
        volumes.now.form progress.old progress.new result }
{
    if volumes.pairs.taken[other as usize] {
        return Ok(());
    }
    let Some(path) = file_path(alloc, volumes.format, &volumes.second, other)? else {
        return Ok(());
    };
    let found = look_at_other(alloc, second, volumes, files, other)?;
    progress.tell(volumes.form, path.as_bytes(), found)
}

/// Tells what is found of the files of the second volume that have no partner, in directory order, behind those that
/// were told of.
///
/// # Errors
/// `TooLarge` where the second volume has more bytes than may be read; `Memory`.
pub fn tell_second<E: Device, F: FileFormat>(
    alloc: Global,
    second: &mut E,
    volumes: &Volumes<'_, F>,
    files: &mut VolumeFiles,
    progress: &mut Progress,
) -> Result<(), CompareError>
    requires fits { Fits (F.meaning volumes.now.format.now) (E.state second.old) }
    requires places { (F.directory volumes.now.format.now volumes.now.second).places ≡ (E.state second.old).places }
    requires opened { AreFilesOf (F.meaning volumes.now.format.now)
        (F.directory volumes.now.format.now volumes.now.second) (E.state second.old) files.old }
    requires pairs { ArePairs
        (paths_of (F.files volumes.now.format.now) (F.directory volumes.now.format.now volumes.now.first))
        (paths_of (F.files volumes.now.format.now) (F.directory volumes.now.format.now volumes.now.second))
        volumes.now.pairs.partners.items volumes.now.pairs.taken.items }
    requires few { AreAtMost progress.old.report.totals (2 ^ 32) }

    ensures reads { ReadsOn (E.state second.old) (E.state second.new) }
    ensures all { progress.new.all ≡ progress.old.all }
    ensures told { (first first_now start : DeviceState) (most : ℕ) (told : List (Option Told))
        → ReadsOn start (E.state second.old) → IsProgress volumes.now.form most told progress.old
        → IfOk result (λ _. IsToldBehind (IsTrue start.honest)
        (AreToldAloneUpTo (compared_in volumes.now.form (F.files volumes.now.format.now)
        (F.meaning volumes.now.format.now) (F.directory volumes.now.format.now volumes.now.first)
        (F.directory volumes.now.format.now volumes.now.second) first first_now start (E.state second.new))
        (entries (F.directory volumes.now.format.now volumes.now.second))) volumes.now.form most told
        (entries (F.directory volumes.now.format.now volumes.now.second)) progress.new) }
    ensures over { (first first_now start : DeviceState) (most : ℕ) (told : List (Option Told))
        → IsTrue start.honest → ReadsOn start (E.state second.old) → IsProgress volumes.now.form most told progress.old
        → IfErr result (IsOverBehind (compared_in volumes.now.form (F.files volumes.now.format.now)
        (F.meaning volumes.now.format.now) (F.directory volumes.now.format.now volumes.now.first)
        (F.directory volumes.now.format.now volumes.now.second) first first_now start (E.state second.new)) most told) }
{
    for other in 0..volumes.format.entries(&volumes.second) {
        let told = tell_other(alloc, second, volumes, files, other, progress);
        if let Err(error) = told {
            return Err(error);
        }
    }
    Ok(())
}
