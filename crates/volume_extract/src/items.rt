// The item of the next entry.
ghost use Rattle.std.specs.Prelude.{◌≡◌, ◌<◌, ◌≤◌, ◌+◌, ◌^◌, IfOk, List, MatchResult, length, string_bytes};
ghost use Rattle.a2_device.specs.Device.{DeviceState};
ghost use Rattle.file_cmds.specs.EachFile.{AreFilesOf};
ghost use Rattle.file_cmds.specs.ReadingOn.{ReadsOn};
ghost use Rattle.host_folders.specs.HostNames.{host_name};
ghost use Rattle.vol_format.specs.Directory.{entries, entry_of, is_directory};
ghost use Rattle.vol_format.specs.Fits.{Fits};
ghost use Rattle.volume_extract.specs.Counts.{AreCounted};
ghost use Rattle.volume_extract.specs.Items.{Item, host_below as host_below_in};
ghost use Rattle.volume_extract.specs.Keys.{NameKey, keys_of};
ghost use Rattle.volume_extract.specs.Kept.{AreKept, StandsBefore, head_entry};
ghost use Rattle.volume_extract.specs.Naming.{IsHead};
ghost use Rattle.volume_extract.specs.Progress.{HasNext, HasNoNext};
ghost use Rattle.volume_extract.specs.Source.{contents_since, source_of};

use crate::body::Body;
use crate::error::ExtractError;
use crate::hosts::{host_below, name_of, stored_of};
use crate::kept::{Head, Kept, Tail};
use crate::names::Names;
use crate::opened::{Opened, is_folder};
use crate::placing::{Place, next_place};
use crate::seeing::{aux_of, is_text, see_early, see_on};
use crate::tree_format::TreeFormat;
use a2_device::Device;
use file_cmds::VolumeFiles;
use file_formats::FileFormat;
use host_folders::bare_name;
use std::alloc::{AllocError, Global};

/// The most bytes of a path on the host.
const MOST_HOST: usize = 1024;

/// An item that is ready to be made.
#[derive(Drop)]
pub struct Next {
    pub head: Head,
    pub host: String,
    pub body: Body,
}

// Names an entry that stands there, and counts its name.
fn name_entry<F: TreeFormat>(
    alloc: Global,
    opened: &Opened<'_, F>,
    names: &mut Names,
    place: Place,
    tail: Tail,
    entry: u32,
) -> Result<Head, AllocError>
    requires { entry < entries (F.directory opened.now.format.now opened.now.volume) }
    ensures above { IfOk result (λ head. head.above ≡ place.above) }
    ensures some { IfOk result (λ head. 1 ≤ head.number) }
    ensures head { (keys : List NameKey) → AreCounted keys names.old → length keys + 1 < 2 ^ 32 → IfOk result (IsHead
        opened.now.form (F.own opened.now.format.now
        (entry_of (F.directory opened.now.format.now opened.now.volume) entry))
        (is_directory (entry_of (F.directory opened.now.format.now opened.now.volume) entry))
        opened.now.naming place tail keys names.new) }
{
    let head = Head {
        above: place.above,
        number: 1,
        depth: place.depth,
        kind: tail.kind,
        aux: tail.aux,
        directory: is_folder(opened, entry),
        text: tail.text,
    };
    let stored = stored_of(opened, entry, head);
    let bare = bare_name(alloc, opened.naming, &stored)?;
    let number = names.number(head.above, bare)?;
    Ok(Head { number, ..head })
}

// The path on the host of an entry with this head.
fn host_of<F: TreeFormat>(
    alloc: Global,
    opened: &Opened<'_, F>,
    kept: &[Kept],
    entry: u32,
    head: Head,
) -> Result<String, AllocError>
    requires entry { entry < entries (F.directory opened.now.format.now opened.now.volume) }
    requires kept { (items : List Item) × AreKept opened.now.form (F.own opened.now.format.now)
        (F.directory opened.now.format.now opened.now.volume) opened.now.naming items kept.now }
    requires above { StandsBefore (length kept.now) head.above }
    requires number { 1 ≤ head.number }
    ensures { (items : List Item) → AreKept opened.now.form (F.own opened.now.format.now)
        (F.directory opened.now.format.now opened.now.volume) opened.now.naming items kept.now
        → IfOk result (λ path. string_bytes path ≡ host_below_in items head.above (host_name opened.now.naming
        (head_entry opened.now.form (F.own opened.now.format.now
        (entry_of (F.directory opened.now.format.now opened.now.volume) entry)) head) head.number)) }
{
    let name = name_of(alloc, opened, entry, head)?;
    host_below(alloc, opened, kept, head.above, name)
}

/// Makes the item of the entry behind those that are kept ready, and counts its name.
///
/// # Errors
/// `TooDeep` where it stands in too many directories or its path is too long; `Memory`.
pub fn next_item<D: Device, F: TreeFormat>(
    alloc: Global,
    device: &mut D,
    opened: &Opened<'_, F>,
    kept: &[Kept],
    files: &mut VolumeFiles,
    names: &mut Names,
    entry: u32,
) -> Result<Next, ExtractError>
    requires fits { Fits (F.meaning opened.now.format.now) (D.state device.old) }
    requires places { (F.directory opened.now.format.now opened.now.volume).places ≡ (D.state device.old).places }
    requires entry { entry ≡ length kept.now }
    requires inside { entry < entries (F.directory opened.now.format.now opened.now.volume) }
    requires few { entry + 1 < 2 ^ 32 }
    requires opened { AreFilesOf (F.meaning opened.now.format.now)
        (F.directory opened.now.format.now opened.now.volume) (D.state device.old) files.old }
    requires kept { (items : List Item) × AreKept opened.now.form (F.own opened.now.format.now)
        (F.directory opened.now.format.now opened.now.volume) opened.now.naming items kept.now }

    ensures reads { ReadsOn (D.state device.old) (D.state device.new) }
    ensures files { AreFilesOf (F.meaning opened.now.format.now)
        (F.directory opened.now.format.now opened.now.volume) (D.state device.new) files.new }
    ensures next { let source = source_of opened.now.form opened.now.naming opened.now.texts
        (F.files opened.now.format.now) (F.meaning opened.now.format.now) (F.own opened.now.format.now)
        (F.directory opened.now.format.now opened.now.volume) in
        (start : DeviceState) (items : List Item) → ReadsOn start (D.state device.old)
        → AreKept source.form source.own source.directory source.naming items kept.now
        → AreCounted (keys_of source.naming items) names.old
        → MatchResult result
        (HasNext source start (contents_since source start (D.state device.new)) items names.new)
        (HasNoNext source start (contents_since source start (D.state device.new)) items) }
{
    let Some(place) = next_place(opened, kept, entry) else {
        return Err(ExtractError::TooDeep);
    };
    let shown = opened.format.list_entry(alloc, &opened.volume, entry)?;
    let early = see_early(alloc, device, opened, files, entry, &shown)?;
    let tail = Tail {
        kind: shown.kind,
        aux: aux_of(opened.form, &shown, &early),
        text: is_text(opened.texts, &early),
    };
    let head = name_entry(alloc, opened, names, place, tail, entry)?;
    let host = host_of(alloc, opened, kept, entry, head)?;
    if host.len() > MOST_HOST {
        return Err(ExtractError::TooDeep);
    }
    let seen = see_on(alloc, device, opened, files, entry, &shown, early)?;
    Ok(Next {
        head,
        host,
        body: seen.body,
    })
}
