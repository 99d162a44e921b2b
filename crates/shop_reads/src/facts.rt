// What is known of the file of an entry beside it.
ghost use Rattle.std.specs.Prelude.{◌≡◌, ◌<◌, if◌then◌else◌, IfOk, IsTrue, None, Some};
ghost use Rattle.file_cmds.specs.EachFile.{AreFilesOf};
ghost use Rattle.file_cmds.specs.ReadingOn.{FailedInFile, ReadsOn};
ghost use Rattle.file_formats.specs.DosFiles.{number_at};
ghost use Rattle.file_listings.specs.Known.{facts_with};
ghost use Rattle.vol_format.specs.Directory.{entries, entry_of};
ghost use Rattle.vol_format.specs.Fits.{Fits};
ghost use Rattle.volume_compare.specs.Contents.{volume_in};
ghost use Rattle.shop_reads.specs.EntriesReply.{
  AreFacts,
  AreTextFacts,
  PartsAre,
  digest_by,
  no_digest,
  parts_found,
  unread_facts,
  wants_places,
};

use crate::listing::ShownFormat;
use crate::wants::{Wants, wants_of, wants_places};
use a2_device::{Device, Part};
use file_cmds::{FileParts, FileText, VolumeFiles};
use file_formats::{FileFormat, address_of};
use file_listings::Facts;
use row_text::{Digest, Digested};
use sha2::{Digest as _, Sha256};
use shop_jobs::ListOptions;
use std::alloc::{AllocError, Global};
use vol_format::{Format, Link};

/// What was read of a file: the facts, and where places are told its parts, if they are known.
#[derive(Drop)]
pub struct ReadFile {
    pub facts: Facts,
    pub parts: Option<Vec<Part>>,
}

// How many bytes a text has, and their SHA-256.
fn digest_by(text: &[u8]) -> Digested
    ensures { result ≡ digest_by text.now }
{
    Digested::Of(Digest {
        count: text.len() as u64,
        sha256: Sha256::digest(text),
    })
}

// What is known of a file that is not read.
fn unread(digests: bool) -> Facts
    ensures { result ≡ unread_facts digests }
{
    Facts {
        address: None,
        digest: if digests {
            Digested::Missing
        } else {
            Digested::Untold
        },
    }
}

// What is known of a file with this whole text.
fn facts_by<F: FileFormat>(
    format: &F,
    volume: &F::Volume,
    file: u32,
    text: Vec<u8>,
    wants: Wants,
) -> Result<Facts, AllocError>
    requires { file < entries (F.directory format.now volume.now) }
    ensures address { IfOk result (λ facts. facts.address
        ≡ (if wants.address then Some (number_at text.items 0) else None)) }
    ensures digest { IfOk result (λ facts. facts.digest
        ≡ (if wants.digest then digest_by ((F.files format.now).body
        (entry_of (F.directory format.now volume.now) file).bytes text.items) else no_digest wants.digests)) }
{
    let mut facts = unread(wants.digests);
    if wants.address {
        facts.address = Some(address_of(text.as_slice()));
    }
    if wants.digest {
        facts.digest = digest_by(format.body(volume, file, text)?.as_slice());
    }
    Ok(facts)
}

// What is known of the text of the file of an entry.
fn entry_facts<D: Device, F: ShownFormat>(
    alloc: Global,
    device: &mut D,
    format: &F,
    volume: &F::Volume,
    files: &mut VolumeFiles,
    file: u32,
    options: ListOptions,
) -> Result<Facts, AllocError>
    requires fits { Fits (F.meaning format.now) (D.state device.old) }
    requires places { (F.directory format.now volume.now).places ≡ (D.state device.old).places }
    requires file { file < entries (F.directory format.now volume.now) }
    requires opened { AreFilesOf (F.meaning format.now) (F.directory format.now volume.now)
        (D.state device.old) files.old }

    ensures reads { ReadsOn (D.state device.old) (D.state device.new) }
    ensures kept { AreFilesOf (F.meaning format.now) (F.directory format.now volume.now)
        (D.state device.new) files.new }
    ensures facts { IsTrue (D.state device.old).honest → IfOk result (AreTextFacts
        (volume_in (F.form format.now) (F.files format.now) (F.meaning format.now)
        (F.directory format.now volume.now) (D.state device.old).store) options
        (FailedInFile (F.meaning format.now) (F.directory format.now volume.now)
        (D.state device.old) (D.state device.new)) file) }
{
    let wants = wants_of(alloc, format, volume, file, options)?;
    if !wants.address && !wants.digest {
        return Ok(unread(options.digests));
    }
    match files.text(alloc, device, format, volume, file)? {
        FileText::Whole(text) => facts_by(format, volume, file, text, wants),
        FileText::Faulty | FileText::Failed => Ok(unread(options.digests)),
    }
}

// The parts of the file of an entry, where places are told and they are known.
fn entry_parts<D: Device, F: ShownFormat>(
    alloc: Global,
    device: &mut D,
    format: &F,
    volume: &F::Volume,
    files: &mut VolumeFiles,
    file: u32,
    options: ListOptions,
) -> Result<Option<Vec<Part>>, AllocError>
    requires fits { Fits (F.meaning format.now) (D.state device.old) }
    requires places { (F.directory format.now volume.now).places ≡ (D.state device.old).places }
    requires file { file < entries (F.directory format.now volume.now) }
    requires opened { AreFilesOf (F.meaning format.now) (F.directory format.now volume.now)
        (D.state device.old) files.old }

    ensures reads { ReadsOn (D.state device.old) (D.state device.new) }
    ensures kept { AreFilesOf (F.meaning format.now) (F.directory format.now volume.now)
        (D.state device.new) files.new }
    ensures parts { IsTrue (D.state device.old).honest → IfOk result (λ parts. PartsAre (wants_places options)
        (volume_in (F.form format.now) (F.files format.now) (F.meaning format.now)
        (F.directory format.now volume.now) (D.state device.old).store)
        (FailedInFile (F.meaning format.now) (F.directory format.now volume.now)
        (D.state device.old) (D.state device.new)) file (parts_found (wants_places options) parts)) }
{
    if !wants_places(options) || matches!(format.root(volume, file), Link::Directory) {
        return Ok(None);
    }
    match files.parts(alloc, device, format, volume, file)? {
        FileParts::Whole(parts) => Ok(Some(parts)),
        FileParts::Faulty | FileParts::Failed => Ok(None),
    }
}

/// What is known of the file of an entry.
///
/// # Errors
/// Want of memory alone.
pub fn entry_known<D: Device, F: ShownFormat>(
    alloc: Global,
    device: &mut D,
    format: &F,
    volume: &F::Volume,
    files: &mut VolumeFiles,
    file: u32,
    options: ListOptions,
) -> Result<ReadFile, AllocError>
    requires fits { Fits (F.meaning format.now) (D.state device.old) }
    requires places { (F.directory format.now volume.now).places ≡ (D.state device.old).places }
    requires file { file < entries (F.directory format.now volume.now) }
    requires opened { AreFilesOf (F.meaning format.now) (F.directory format.now volume.now)
        (D.state device.old) files.old }

    ensures reads { ReadsOn (D.state device.old) (D.state device.new) }
    ensures kept { AreFilesOf (F.meaning format.now) (F.directory format.now volume.now)
        (D.state device.new) files.new }
    ensures known { IsTrue (D.state device.old).honest → IfOk result (λ read. AreFacts
        (volume_in (F.form format.now) (F.files format.now) (F.meaning format.now)
        (F.directory format.now volume.now) (D.state device.old).store) options
        (FailedInFile (F.meaning format.now) (F.directory format.now volume.now)
        (D.state device.old) (D.state device.new)) file
        (facts_with read.facts (parts_found (wants_places options) read.parts))) }
{
    let facts = entry_facts(alloc, device, format, volume, files, file, options)?;
    let parts = entry_parts(alloc, device, format, volume, files, file, options)?;
    Ok(ReadFile { facts, parts })
}
