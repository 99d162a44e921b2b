// The paths of entries on the host.
ghost use Rattle.std.specs.Prelude.{◌≡◌, ◌<◌, ◌≤◌, All, IfOk, List, Option, length, string_bytes};
ghost use Rattle.host_folders.specs.HostNames.{entry_view, host_name};
ghost use Rattle.host_folders.specs.Laws.{IsEntry};
ghost use Rattle.vol_format.specs.Directory.{entries, entry_of};
ghost use Rattle.volume_extract.specs.Items.{Item, host_below};
ghost use Rattle.volume_extract.specs.Kept.{AreKept, StandsBefore, head_entry};

use crate::kept::{Head, Kept};
use crate::opened::Opened;
use crate::tree_format::TreeFormat;
use host_folders::{Stored, host_name};
use std::alloc::{AllocError, Global};

// What the types of the parts of an entry say of them.
fn parts_fit(name: &[u8], kind: u8, aux: u16)
    ensures bytes { All (λ byte. byte < 256) name.now }
    ensures kind { kind < 256 }
    ensures aux { aux < 65536 }
{}

/// What the name of an entry says.
pub fn stored_of<'a, F: TreeFormat>(opened: &'a Opened<'_, F>, entry: u32, head: Head) -> Stored<'a>
    requires { entry < entries (F.directory opened.now.format.now opened.now.volume) }
    ensures stored { entry_view result ≡ head_entry opened.now.form
        (F.own opened.now.format.now (entry_of (F.directory opened.now.format.now opened.now.volume) entry)) head }
    ensures fits { IsEntry (entry_view result) }
    ensures short { length result.name.now ≤ 30 }
{
    let name = opened.format.own_name(&opened.volume, entry);
    parts_fit(name, head.kind, head.aux);
    Stored {
        form: opened.form,
        name,
        kind: head.kind,
        aux: head.aux,
        directory: head.directory,
        text: head.text,
    }
}

/// The name of an entry in its folder.
///
/// # Errors
/// Want of memory alone.
pub fn name_of<F: TreeFormat>(
    alloc: Global,
    opened: &Opened<'_, F>,
    entry: u32,
    head: Head,
) -> Result<String, AllocError>
    requires entry { entry < entries (F.directory opened.now.format.now opened.now.volume) }
    requires number { 1 ≤ head.number }
    ensures { IfOk result (λ name. string_bytes name ≡ host_name opened.now.naming (head_entry opened.now.form
        (F.own opened.now.format.now (entry_of (F.directory opened.now.format.now opened.now.volume) entry)) head)
        head.number) }
{
    let stored = stored_of(opened, entry, head);
    host_name(alloc, opened.naming, &stored, head.number)
}

/// The path of a name below the folder of a directory.
///
/// # Errors
/// Want of memory alone.
pub fn host_below<F: TreeFormat>(
    alloc: Global,
    opened: &Opened<'_, F>,
    kept: &[Kept],
    above: Option<u32>,
    name: String,
) -> Result<String, AllocError>
    requires kept { (items : List Item) × AreKept opened.now.form (F.own opened.now.format.now)
        (F.directory opened.now.format.now opened.now.volume) opened.now.naming items kept.now }
    requires above { StandsBefore (length kept.now) above }
    ensures { (items : List Item) → AreKept opened.now.form (F.own opened.now.format.now)
        (F.directory opened.now.format.now opened.now.volume) opened.now.naming items kept.now
        → IfOk result (λ path. string_bytes path ≡ host_below items above (string_bytes name)) }
{
    let mut path = name;
    let mut next = above;
    while let Some(directory) = next {
        let head = kept[directory as usize].head;
        let mut longer = name_of(alloc, opened, directory, head)?;
        longer.push('/')?;
        longer.push_str(path.as_str())?;
        path = longer;
        next = head.above;
    }
    Ok(path)
}
