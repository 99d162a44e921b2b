// What is compared of a file.
ghost use Rattle.std.specs.Prelude.{◌≡◌, ◌<◌, IfOk, IsTrue, length};
ghost use Rattle.file_cmds.specs.EachFile.{AreFilesOf};
ghost use Rattle.file_cmds.specs.ReadingOn.{FailedInFile, ReadsOn};
ghost use Rattle.file_cmds.specs.Text.{IsWholeTextOf};
ghost use Rattle.vol_format.specs.Directory.{entries, entry_of};
ghost use Rattle.vol_format.specs.Fits.{Fits};
ghost use Rattle.volume_compare.specs.Contents.{
  IsJudged,
  IsRead,
  content_by,
  content_view,
  head_of,
  volume_in,
};

use crate::finding::Finding;
use a2_device::Device;
use file_cmds::{FileText, VolumeFiles, is_binary};
use file_formats::{FileFormat, ListEntry, address_of};
use pro_dir::ProDate;
use std::alloc::{AllocError, Global};
use vol_layout::PlaceForm;

/// What is compared of a file beside its text.
#[derive(Clone, Copy, PartialEq, Eq)]
pub struct Head {
    pub locked: bool,
    pub kind: u8,
    pub access: u8,
    pub aux: u16,
    pub eof: u32,
    pub created: ProDate,
    pub modified: ProDate,
    /// That of a binary file of DOS 3.3.
    pub address: Option<u16>,
}

/// What is compared of a file.
#[derive(Drop)]
pub struct Content {
    pub head: Head,
    pub text: Vec<u8>,
}

impl Content {
    /// How many bytes its text has.
    pub fn bytes(&self) -> u64
        ensures { result ≡ length self.now.text.items }
    {
        self.text.len() as u64
    }
}

// What is compared beside the text of a file with this whole text.
fn head_of(form: PlaceForm, entry: &ListEntry, whole: &[u8]) -> Head
    ensures { result ≡ head_of form entry.now whole.now }
{
    Head {
        locked: entry.locked,
        kind: entry.kind,
        access: entry.access,
        aux: entry.aux,
        eof: entry.eof,
        created: entry.created,
        modified: entry.modified,
        address: if is_binary(form, entry) {
            Some(address_of(whole))
        } else {
            None
        },
    }
}

// The content of a file with this whole text.
fn content_by<F: FileFormat>(
    alloc: Global,
    format: &F,
    form: PlaceForm,
    volume: &F::Volume,
    file: u32,
    whole: Vec<u8>,
) -> Result<Content, AllocError>
    requires { file < entries (F.directory format.now volume.now) }
    ensures { IfOk result (λ content. content_view content ≡ content_by form (F.files format.now)
        (entry_of (F.directory format.now volume.now) file) whole.items) }
{
    let entry = format.list_entry(alloc, volume, file)?;
    let head = head_of(form, &entry, whole.as_slice());
    let text = format.body(volume, file, whole)?;
    Ok(Content { head, text })
}

/// The content of the file of an entry; `None` where it can't be read.
///
/// # Errors
/// Want of memory alone.
pub fn content_of<D: Device, F: FileFormat>(
    alloc: Global,
    device: &mut D,
    format: &F,
    form: PlaceForm,
    volume: &F::Volume,
    files: &mut VolumeFiles,
    file: u32,
) -> Result<Option<Content>, AllocError>
    requires fits { Fits (F.meaning format.now) (D.state device.old) }
    requires places { (F.directory format.now volume.now).places ≡ (D.state device.old).places }
    requires file { file < entries (F.directory format.now volume.now) }
    requires opened { AreFilesOf (F.meaning format.now) (F.directory format.now volume.now)
        (D.state device.old) files.old }

    ensures reads { ReadsOn (D.state device.old) (D.state device.new) }
    ensures kept { AreFilesOf (F.meaning format.now) (F.directory format.now volume.now)
        (D.state device.new) files.new }
    ensures content { IsTrue (D.state device.old).honest → IfOk result (IsRead
        (volume_in form (F.files format.now) (F.meaning format.now) (F.directory format.now volume.now)
        (D.state device.old).store) (FailedInFile (F.meaning format.now) (F.directory format.now volume.now)
        (D.state device.old) (D.state device.new)) file) }
{
    let text = files.text(alloc, device, format, volume, file)?;
    match text {
        FileText::Whole(whole) => Ok(Some(content_by(alloc, format, form, volume, file, whole)?)),
        FileText::Faulty | FileText::Failed => Ok(None),
    }
}

/// What two contents are to each other.
pub fn judge(one: &Content, other: &Content) -> Finding
    ensures { IsJudged (content_view one.now) (content_view other.now) result }
{
    if one.text.as_slice() != other.text.as_slice() {
        return Finding::Body;
    }
    if one.head == other.head {
        Finding::Same
    } else {
        Finding::Entry
    }
}
