// What the content of a volume tells of a file.
ghost use Rattle.std.specs.Prelude.{◌≡◌, ◌<◌, IfOk, IsTrue, None, Some};
ghost use Rattle.file_cmds.specs.EachFile.{AreFilesOf};
ghost use Rattle.file_cmds.specs.ReadingOn.{ReadsOn};
ghost use Rattle.vol_format.specs.Directory.{entries, entry_of};
ghost use Rattle.vol_format.specs.Fits.{Fits};
ghost use Rattle.volume_compare.specs.Contents.{volume_in};
ghost use Rattle.image_survey.specs.FileLine.{IsLineOf, digest_text, line_by, line_text};

use a2_device::Device;
use file_cmds::{FileText, VolumeFiles, is_binary};
use file_formats::{FileFormat, ListEntry, StoredName, address_of};
use row_text::{LowerHex, UpperHex};
use sha2::{Digest, Sha256};
use std::alloc::{AllocError, Global};
use std::fmt;
use vol_layout::PlaceForm;

/// What the content of a volume tells of a file.
#[derive(Drop)]
pub struct FileLine {
    /// The bytes of its path, as they are stored.
    pub path: StoredName,
    pub kind: u8,
    pub aux: u16,
    pub eof: u32,
    /// How many bytes its body has; they are counted, and not told.
    pub bytes: u64,
    /// The SHA-256 of its body, where it can be read.
    pub digest: Option<[u8; 32]>,
}

// A digest, or a hyphen where there is none.
#[derive(Clone, Copy)]
pub(crate) struct DigestText<'a>(pub(crate) &'a Option<[u8; 32]>);

impl fmt::Display for DigestText<'_> {
    ghost output = { λ d. Some (digest_text d.0.now) };

    fn fmt<W: fmt::Write>(&self, f: &mut fmt::Formatter<W>) -> fmt::Result {
        match self.0 {
            None => write!(f, "-"),
            Some(digest) => {
                let digits = LowerHex(digest);
                write!(f, "{digits}")
            }
        }
    }
}

impl fmt::Display for FileLine {
    ghost output = { λ l. Some (line_text l) };

    fn fmt<W: fmt::Write>(&self, f: &mut fmt::Formatter<W>) -> fmt::Result {
        let path = UpperHex(self.path.as_bytes());
        let FileLine { kind, aux, eof, .. } = self;
        let digest = DigestText(&self.digest);
        write!(f, "{path} {kind} {aux} {eof} {digest}")
    }
}

// What is told of a file that has this whole text.
fn line_with<F: FileFormat>(
    format: &F,
    form: PlaceForm,
    volume: &F::Volume,
    file: u32,
    entry: ListEntry,
    whole: Vec<u8>,
) -> Result<FileLine, AllocError>
    requires file { file < entries (F.directory format.now volume.now) }
    requires entry { entry ≡ (F.files format.now).shown (entry_of (F.directory format.now volume.now) file) }
    ensures { IfOk result (λ told. told ≡ line_by form (F.files format.now)
        (entry_of (F.directory format.now volume.now) file) (Some whole.items)) }
{
    let aux = if is_binary(form, &entry) {
        address_of(whole.as_slice())
    } else {
        entry.aux
    };
    let body = format.body(volume, file, whole)?;
    Ok(FileLine {
        path: entry.path,
        kind: entry.kind,
        aux,
        eof: entry.eof,
        bytes: body.len() as u64,
        digest: Some(Sha256::digest(body.as_slice())),
    })
}

// What is told of a file that can't be read.
fn line_without<F: FileFormat>(
    format: &F,
    form: PlaceForm,
    volume: &F::Volume,
    file: u32,
    entry: ListEntry,
) -> FileLine
    requires file { file < entries (F.directory format.now volume.now) }
    requires entry { entry ≡ (F.files format.now).shown (entry_of (F.directory format.now volume.now) file) }
    ensures { result ≡ line_by form (F.files format.now) (entry_of (F.directory format.now volume.now) file) None }
{
    let aux = if is_binary(form, &entry) {
        0
    } else {
        entry.aux
    };
    FileLine {
        path: entry.path,
        kind: entry.kind,
        aux,
        eof: entry.eof,
        bytes: 0,
        digest: None,
    }
}

/// What is told of the file of an entry. It reads the file's own units, each once, up to the first that can't be read.
///
/// # Errors
/// Want of memory alone.
pub(crate) fn line_of<D: Device, F: FileFormat>(
    alloc: Global,
    device: &mut D,
    format: &F,
    form: PlaceForm,
    volume: &F::Volume,
    files: &mut VolumeFiles,
    file: u32,
) -> Result<FileLine, AllocError>
    requires fits { Fits (F.meaning format.now) (D.state device.old) }
    requires places { (F.directory format.now volume.now).places ≡ (D.state device.old).places }
    requires file { file < entries (F.directory format.now volume.now) }
    requires opened { AreFilesOf (F.meaning format.now) (F.directory format.now volume.now)
        (D.state device.old) files.old }
    requires honest { IsTrue (D.state device.old).honest }
    requires never { (D.state device.old).read_failures ≡ Some 0 }

    ensures reads { ReadsOn (D.state device.old) (D.state device.new) }
    ensures kept { AreFilesOf (F.meaning format.now) (F.directory format.now volume.now)
        (D.state device.new) files.new }
    ensures told { IfOk result (IsLineOf
        (volume_in form (F.files format.now) (F.meaning format.now) (F.directory format.now volume.now)
        (D.state device.old).store) (D.state device.old).unreadable file) }
{
    let entry = format.list_entry(alloc, volume, file)?;
    let text = files.text(alloc, device, format, volume, file)?;
    match text {
        FileText::Whole(whole) => line_with(format, form, volume, file, entry, whole),
        FileText::Faulty | FileText::Failed => {
            Ok(line_without(format, form, volume, file, entry))
        }
    }
}
