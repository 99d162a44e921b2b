// What is known of the files of a volume beside its entries.
ghost use Rattle.std.specs.Prelude.{
  ◌≡◌,
  ◌<◌,
  ◌≤◌,
  ◌+◌,
  ◌&&◌,
  ◌++◌,
  [],
  ◌∷◌,
  OnOk,
  not,
  IfNone,
  IfOk,
  IfSome,
  IsTrue,
  false,
  true,
};
ghost use Rattle.file_cmds.specs.ReadingOn.{FailedInFile, ReadsOn};
ghost use Rattle.file_listings.specs.Known.{HasRuns, facts_in, facts_with};
ghost use Rattle.vol_format.specs.Directory.{entries, entry_of, is_directory};
ghost use Rattle.vol_format.specs.Fits.{Fits};
ghost use Rattle.volume_compare.specs.Contents.{volume_in};
ghost use Rattle.shop_reads.specs.declared.known.FactsError.TheVariants.{Memory as NoMemory};
ghost use Rattle.shop_reads.specs.EntriesReply.{
  AreFactsUpTo,
  IsCompleteUpTo,
  ReadTooMuch,
  bytes_of,
  bytes_read,
  bytes_told,
  is_missing,
  parts_found,
  reads_files,
  wants_places,
};

use crate::facts::{ReadFile, entry_known};
use crate::listing::ShownFormat;
use crate::wants::{wants_any, wants_places};
use a2_device::Device;
use file_cmds::VolumeFiles;
use file_formats::FileFormat;
use file_listings::{Facts, KnownFiles};
use row_text::Digested;
use shop_jobs::ListOptions;
use std::alloc::{AllocError, Global};
use vol_format::{Format, Link};

/// Why not all files of a volume were read.
#[derive(Clone, Copy)]
pub enum FactsError {
    /// The files that were read have more bytes than they may.
    TooLarge,
    Memory,
}

/// What is known of the files of a volume.
#[derive(Drop)]
pub struct Known {
    pub files: KnownFiles,
    /// Whether each file has a digest, where digests are told.
    pub complete: bool,
}

impl Known {
    // Room for what is known of so many files.
    fn with_capacity(alloc: Global, files: usize, options: ListOptions) -> Result<Known, AllocError>
        ensures facts { IfOk result (λ known. facts_in known.files ≡ []) }
        ensures places { IfOk result (λ known. known.files.places ≡ wants_places options) }
        ensures runs { IfOk result (λ known. HasRuns known.files) }
        ensures complete { IfOk result (λ known. known.complete ≡ true) }
    {
        Ok(Known {
            files: KnownFiles::with_capacity(alloc, files, wants_places(options))?,
            complete: true,
        })
    }

    // Notes what was read of the next file, and whether it lacks a digest.
    fn add(&mut self, read: ReadFile, lacks: bool) -> Result<(), AllocError>
        ensures facts { OnOk result (HasRuns self.old.files → facts_in self.new.files
            ≡ facts_in self.old.files ++ facts_with read.facts (parts_found self.old.files.places read.parts) ∷ []) }
        ensures places { OnOk result (self.new.files.places ≡ self.old.files.places) }
        ensures runs { OnOk result (HasRuns self.old.files → HasRuns self.new.files) }
        ensures complete { OnOk result (self.new.complete ≡ (self.old.complete && not lacks)) }
    {
        self.complete = self.complete && !lacks;
        match &read.parts {
            Some(parts) => self.files.add(read.facts, Some(parts.as_slice())),
            None => self.files.add(read.facts, None),
        }
    }
}

impl From<AllocError> for FactsError {
    ghost from_gives = { λ _ e. e ≡ NoMemory };

    fn from(_: AllocError) -> Self {
        FactsError::Memory
    }
}

// Whether a file of which this is known has no digest.
fn lacks_digest<F: ShownFormat>(format: &F, volume: &F::Volume, file: u32, facts: &Facts) -> bool
    requires { file < entries (F.directory format.now volume.now) }
    ensures { result ≡ (not (is_directory (entry_of (F.directory format.now volume.now) file))
        && is_missing facts.now.digest) }
{
    !matches!(format.root(volume, file), Link::Directory) && facts.digest == Digested::Missing
}

// How many bytes were read for a digest.
fn bytes_of(digest: Digested) -> u64
    ensures { result ≡ bytes_of digest }
{
    match digest {
        Digested::Of(digest) => digest.count,
        Digested::Untold | Digested::Missing => 0,
    }
}

// What is left of so many bytes when those of a file are read and the units of its parts are told; nothing where they
// are too many.
fn left_after(left: u64, read: &ReadFile, options: ListOptions, unit: u64) -> Option<u64>
    ensures some { IfSome result (λ rest. rest + bytes_told unit
        (facts_with read.now.facts (parts_found (wants_places options) read.now.parts)) ≡ left) }
    ensures none { IfNone result (left < bytes_told unit
        (facts_with read.now.facts (parts_found (wants_places options) read.now.parts))) }
{
    let rest = left.checked_sub(bytes_of(read.facts.digest))?;
    match &read.parts {
        Some(parts) if wants_places(options) => {
            let told = (parts.len() as u64).checked_mul(unit)?;
            rest.checked_sub(told)
        }
        _ => Some(rest),
    }
}

// What is known of the files of all entries of a volume, each of which is looked at.
fn read_known<D: Device, F: ShownFormat>(
    alloc: Global,
    device: &mut D,
    format: &F,
    volume: &F::Volume,
    options: ListOptions,
) -> Result<Known, FactsError>
    requires fits { Fits (F.meaning format.now) (D.state device.old) }
    requires places { (F.directory format.now volume.now).places ≡ (D.state device.old).places }

    ensures reads { ReadsOn (D.state device.old) (D.state device.new) }
    ensures facts { IsTrue (D.state device.old).honest → IfOk result (λ known. AreFactsUpTo
        (volume_in (F.form format.now) (F.files format.now) (F.meaning format.now)
        (F.directory format.now volume.now) (D.state device.old).store) options
        (FailedInFile (F.meaning format.now) (F.directory format.now volume.now)
        (D.state device.old) (D.state device.new))
        (entries (F.directory format.now volume.now)) (facts_in known.files)) }
    ensures few { IfOk result (λ known.
        bytes_read (F.meaning format.now).unit_size (facts_in known.files) ≤ options.most) }
    ensures complete { IfOk result (λ known. IsCompleteUpTo (F.directory format.now volume.now) (facts_in known.files)
        (entries (F.directory format.now volume.now)) known.complete) }
    ensures many { IsTrue (D.state device.old).honest → result ≡ Err FactsError.TooLarge → ReadTooMuch
        (volume_in (F.form format.now) (F.files format.now) (F.meaning format.now)
        (F.directory format.now volume.now) (D.state device.old).store) options
        (FailedInFile (F.meaning format.now) (F.directory format.now volume.now)
        (D.state device.old) (D.state device.new)) }
{
    let mut files = VolumeFiles::open(alloc, device, format, volume)?;
    let mut known = Known::with_capacity(alloc, format.entries(volume) as usize, options)?;
    let unit = device.unit() as u64;
    let mut left = options.most;
    for file in 0..format.entries(volume) {
        let read = entry_known(alloc, device, format, volume, &mut files, file, options)?;
        let Some(rest) = left_after(left, &read, options, unit) else {
            return Err(FactsError::TooLarge);
        };
        left = rest;
        let lacks = lacks_digest(format, volume, file, &read.facts);
        known.add(read, lacks)?;
    }
    Ok(known)
}

/// What is known of the files of all entries of a volume that was read; the first that has too many bytes with those
/// before it, the units of its parts that are told among them, is the last that is read.
///
/// # Errors
/// `TooLarge` where the files that were read have more bytes than they may; `Memory`.
pub fn known_of<D: Device, F: ShownFormat>(
    alloc: Global,
    device: &mut D,
    format: &F,
    volume: &F::Volume,
    options: ListOptions,
) -> Result<Known, FactsError>
    requires fits { Fits (F.meaning format.now) (D.state device.old) }
    requires places { (F.directory format.now volume.now).places ≡ (D.state device.old).places }

    ensures alone { reads_files options ≡ false → D.state device.new ≡ D.state device.old }
    ensures reads { ReadsOn (D.state device.old) (D.state device.new) }
    ensures facts { IsTrue (D.state device.old).honest → IfOk result (λ known. AreFactsUpTo
        (volume_in (F.form format.now) (F.files format.now) (F.meaning format.now)
        (F.directory format.now volume.now) (D.state device.old).store) options
        (FailedInFile (F.meaning format.now) (F.directory format.now volume.now)
        (D.state device.old) (D.state device.new))
        (entries (F.directory format.now volume.now)) (facts_in known.files)) }
    ensures few { IfOk result (λ known.
        bytes_read (F.meaning format.now).unit_size (facts_in known.files) ≤ options.most) }
    ensures complete { IfOk result (λ known. IsCompleteUpTo (F.directory format.now volume.now) (facts_in known.files)
        (entries (F.directory format.now volume.now)) known.complete) }
    ensures many { IsTrue (D.state device.old).honest → result ≡ Err FactsError.TooLarge → ReadTooMuch
        (volume_in (F.form format.now) (F.files format.now) (F.meaning format.now)
        (F.directory format.now volume.now) (D.state device.old).store) options
        (FailedInFile (F.meaning format.now) (F.directory format.now volume.now)
        (D.state device.old) (D.state device.new)) }
{
    if wants_any(format, options) {
        read_known(alloc, device, format, volume, options)
    } else {
        Ok(Known {
            files: KnownFiles::none(alloc),
            complete: true,
        })
    }
}
