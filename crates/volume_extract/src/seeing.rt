// What is seen of an entry.
ghost use Rattle.std.specs.Prelude.{◌≡◌, ◌<◌, IfOk, IsTrue};
ghost use Rattle.a2_device.specs.Device.{DeviceState};
ghost use Rattle.file_cmds.specs.EachFile.{AreFilesOf};
ghost use Rattle.file_cmds.specs.ReadingOn.{FailedInFile, ReadsOn};
ghost use Rattle.vol_format.specs.Directory.{entries, entry_of};
ghost use Rattle.vol_format.specs.Fits.{Fits};
ghost use Rattle.volume_compare.specs.Contents.{volume_in};
ghost use Rattle.volume_extract.specs.Looked.{IsEarly, IsSeen, IsSeenBy, IsSeenOn, aux_seen, text_seen, view_with};
ghost use Rattle.volume_extract.specs.Texts.{are_alone};

use crate::body::Body;
use crate::found::found_file;
use crate::looking::{Looked, look};
use crate::opened::{Opened, is_folder};
use crate::texts::Texts;
use crate::tree_format::TreeFormat;
use a2_device::Device;
use file_cmds::{VolumeFiles, is_binary};
use file_formats::{ListEntry, address_of};
use std::alloc::{AllocError, Global};
use vol_layout::PlaceForm;

/// What was seen of an entry.
#[derive(Drop)]
pub struct Seen {
    /// The first two bytes of the whole text of a file, and 0 where it can't be read.
    pub address: u16,
    pub body: Body,
}

// What is seen of an entry of a kind that is this.
fn seen_of<F: TreeFormat>(
    alloc: Global,
    opened: &Opened<'_, F>,
    entry: u32,
    kind: u8,
    looked: Looked,
) -> Result<Seen, AllocError>
    requires { entry < entries (F.directory opened.now.format.now opened.now.volume) }
    ensures { IfOk result (IsSeenBy opened.now.texts (view_with opened.now.form kind (F.files opened.now.format.now)
        (entry_of (F.directory opened.now.format.now opened.now.volume) entry)) looked) }
{
    match looked {
        Looked::Folder => Ok(Seen {
            address: 0,
            body: Body::Folder,
        }),
        Looked::Whole(whole) => Ok(Seen {
            address: address_of(&whole),
            body: found_file(alloc, opened, entry, kind, whole)?,
        }),
        Looked::Unreadable => Ok(Seen {
            address: 0,
            body: Body::Unreadable,
        }),
    }
}

// What is seen of an entry.
fn see<D: Device, F: TreeFormat>(
    alloc: Global,
    device: &mut D,
    opened: &Opened<'_, F>,
    files: &mut VolumeFiles,
    entry: u32,
    shown: &ListEntry,
) -> Result<Seen, AllocError>
    requires fits { Fits (F.meaning opened.now.format.now) (D.state device.old) }
    requires places { (F.directory opened.now.format.now opened.now.volume).places ≡ (D.state device.old).places }
    requires entry { entry < entries (F.directory opened.now.format.now opened.now.volume) }
    requires opened { AreFilesOf (F.meaning opened.now.format.now)
        (F.directory opened.now.format.now opened.now.volume) (D.state device.old) files.old }
    requires shown { shown.now ≡ (F.files opened.now.format.now).shown
        (entry_of (F.directory opened.now.format.now opened.now.volume) entry) }

    ensures reads { ReadsOn (D.state device.old) (D.state device.new) }
    ensures kept { AreFilesOf (F.meaning opened.now.format.now)
        (F.directory opened.now.format.now opened.now.volume) (D.state device.new) files.new }
    ensures seen { IsTrue (D.state device.old).honest → IfOk result (IsSeen opened.now.texts
        (volume_in opened.now.form (F.files opened.now.format.now) (F.meaning opened.now.format.now)
        (F.directory opened.now.format.now opened.now.volume) (D.state device.old).store)
        (FailedInFile (F.meaning opened.now.format.now) (F.directory opened.now.format.now opened.now.volume)
        (D.state device.old) (D.state device.new)) entry) }
{
    let looked = look(alloc, device, opened, files, entry)?;
    seen_of(alloc, opened, entry, shown.kind, looked)
}

/// What is seen of an entry where that has to be known before it is named: of a file with an address, and of each where
/// the name says whether a readable form stands in its place.
///
/// # Errors
/// Want of memory alone.
pub fn see_early<D: Device, F: TreeFormat>(
    alloc: Global,
    device: &mut D,
    opened: &Opened<'_, F>,
    files: &mut VolumeFiles,
    entry: u32,
    shown: &ListEntry,
) -> Result<Option<Seen>, AllocError>
    requires fits { Fits (F.meaning opened.now.format.now) (D.state device.old) }
    requires places { (F.directory opened.now.format.now opened.now.volume).places ≡ (D.state device.old).places }
    requires entry { entry < entries (F.directory opened.now.format.now opened.now.volume) }
    requires opened { AreFilesOf (F.meaning opened.now.format.now)
        (F.directory opened.now.format.now opened.now.volume) (D.state device.old) files.old }
    requires shown { shown.now ≡ (F.files opened.now.format.now).shown
        (entry_of (F.directory opened.now.format.now opened.now.volume) entry) }

    ensures reads { ReadsOn (D.state device.old) (D.state device.new) }
    ensures kept { AreFilesOf (F.meaning opened.now.format.now)
        (F.directory opened.now.format.now opened.now.volume) (D.state device.new) files.new }
    ensures early { IfOk result (IsEarly (IsTrue (D.state device.old).honest) opened.now.texts
        (volume_in opened.now.form (F.files opened.now.format.now) (F.meaning opened.now.format.now)
        (F.directory opened.now.format.now opened.now.volume) (D.state device.old).store)
        (FailedInFile (F.meaning opened.now.format.now) (F.directory opened.now.format.now opened.now.volume)
        (D.state device.old) (D.state device.new)) entry) }
{
    if is_folder(opened, entry) || !(are_alone(opened.texts) || is_binary(opened.form, shown)) {
        return Ok(None);
    }
    let seen = see(alloc, device, opened, files, entry, shown)?;
    Ok(Some(seen))
}

// Whether readable forms stand in the places of their files.
fn are_alone(texts: Texts) -> bool
    ensures { result ≡ are_alone texts }
{
    matches!(texts, Texts::Alone)
}

/// The aux type of an entry, or its address where that is told.
pub fn aux_of(form: PlaceForm, shown: &ListEntry, early: &Option<Seen>) -> u16
    ensures { result ≡ aux_seen form shown.now early.now }
{
    match early {
        Some(seen) if is_binary(form, shown) => seen.address,
        _ => shown.aux,
    }
}

/// Whether a readable form stands there in the place of its file.
pub fn is_text(texts: Texts, early: &Option<Seen>) -> bool
    ensures { result ≡ text_seen texts early.now }
{
    match early {
        Some(
            Seen {
                body: Body::Text(_),
                ..
            },
        ) => are_alone(texts),
        _ => false,
    }
}

/// What is seen of an entry, where that is not known yet.
///
/// # Errors
/// Want of memory alone.
pub fn see_on<D: Device, F: TreeFormat>(
    alloc: Global,
    device: &mut D,
    opened: &Opened<'_, F>,
    files: &mut VolumeFiles,
    entry: u32,
    shown: &ListEntry,
    early: Option<Seen>,
) -> Result<Seen, AllocError>
    requires fits { Fits (F.meaning opened.now.format.now) (D.state device.old) }
    requires places { (F.directory opened.now.format.now opened.now.volume).places ≡ (D.state device.old).places }
    requires entry { entry < entries (F.directory opened.now.format.now opened.now.volume) }
    requires opened { AreFilesOf (F.meaning opened.now.format.now)
        (F.directory opened.now.format.now opened.now.volume) (D.state device.old) files.old }
    requires shown { shown.now ≡ (F.files opened.now.format.now).shown
        (entry_of (F.directory opened.now.format.now opened.now.volume) entry) }

    ensures reads { ReadsOn (D.state device.old) (D.state device.new) }
    ensures kept { AreFilesOf (F.meaning opened.now.format.now)
        (F.directory opened.now.format.now opened.now.volume) (D.state device.new) files.new }
    ensures early { IfOk result (IsSeenOn early) }
    ensures seen { (start : DeviceState) → ReadsOn start (D.state device.old)
        → IsEarly (IsTrue start.honest) opened.now.texts
        (volume_in opened.now.form (F.files opened.now.format.now) (F.meaning opened.now.format.now)
        (F.directory opened.now.format.now opened.now.volume) start.store)
        (FailedInFile (F.meaning opened.now.format.now) (F.directory opened.now.format.now opened.now.volume)
        start (D.state device.old)) entry early
        → IsTrue start.honest → IfOk result (IsSeen opened.now.texts
        (volume_in opened.now.form (F.files opened.now.format.now) (F.meaning opened.now.format.now)
        (F.directory opened.now.format.now opened.now.volume) start.store)
        (FailedInFile (F.meaning opened.now.format.now) (F.directory opened.now.format.now opened.now.volume)
        start (D.state device.new)) entry) }
{
    match early {
        Some(seen) => Ok(seen),
        None => see(alloc, device, opened, files, entry, shown),
    }
}
