// The entries of a header.
ghost use Rattle.std.specs.Prelude.{◌≡◌, ◌<◌, ◌+◌, ◌++◌, List, IfNone, IfSome, IsFalse, IsTrue, OnOk, flat_map, length};
ghost use Rattle.apple_single.specs.Format.{entry_bytes};
ghost use Rattle.apple_single.specs.Reading.{HasNone, IsListed, IsTable};

use crate::numbers::{push_u32, split_u32};
use std::alloc::{AllocError, Allocator};

/// The ID of a data fork.
pub(crate) const DATA_FORK: u32 = 1;

/// The ID of a resource fork.
pub(crate) const RESOURCE_FORK: u32 = 2;

/// The ID of a real name.
pub(crate) const REAL_NAME: u32 = 3;

/// The ID of the ProDOS file info.
pub(crate) const FILE_INFO: u32 = 11;

/// An entry: its ID, where its bytes begin in the file, and how many they are.
#[derive(Clone, Copy)]
pub(crate) struct Entry {
    pub(crate) id: u32,
    pub(crate) offset: u32,
    pub(crate) size: u32,
}

impl Entry {
    /// Where the bytes of the entry end.
    pub(crate) fn end(self) -> usize
        ensures { result ≡ self.offset + self.size }
    {
        self.offset as usize + self.size as usize
    }
}

/// The entry that bytes begin with, and what stands behind it.
pub(crate) fn split_entry(bytes: &[u8]) -> Option<(Entry, &[u8])>
    ensures some { IfSome result (λ first. bytes.now ≡ entry_bytes first.0 ++ first.1.now) }
    ensures none { IfNone result (length bytes.now < 12) }
{
    let (id, rest) = split_u32(bytes)?;
    let (offset, rest) = split_u32(rest)?;
    let (size, rest) = split_u32(rest)?;
    Some((Entry { id, offset, size }, rest))
}

/// The first entry of an ID among those of a table.
pub(crate) fn find(table: &[u8], id: u32) -> Option<Entry>
    ensures some { IfSome result (λ entry. (entries : List Entry) → IsTable table.now entries
        → IsListed entries id entry) }
    ensures none { IfNone result ((entries : List Entry) → IsTable table.now entries → HasNone entries id) }
{
    let mut rest = table;
    while let Some((entry, more)) = split_entry(rest) {
        if entry.id == id {
            return Some(entry);
        }
        rest = more;
    }
    None
}

/// Whether an entry of a table has an ID.
pub(crate) fn has(table: &[u8], id: u32) -> bool
    ensures found { IsTrue result → (entries : List Entry) → IsTable table.now entries
        → (entry : Entry) × IsListed entries id entry }
    ensures none { IsFalse result → (entries : List Entry) → IsTable table.now entries → HasNone entries id }
{
    find(table, id).is_some()
}

// Puts an entry behind a file.
fn push_entry<A: Allocator>(file: &mut Vec<u8, A>, entry: Entry) -> Result<(), AllocError>
    ensures { OnOk result (file.new.items ≡ file.old.items ++ entry_bytes entry) }
{
    push_u32(file, entry.id)?;
    push_u32(file, entry.offset)?;
    push_u32(file, entry.size)
}

/// Puts some entries behind a file.
///
/// # Errors
/// Want of memory alone.
pub(crate) fn push_entries<A: Allocator>(
    file: &mut Vec<u8, A>,
    entries: &[Entry],
) -> Result<(), AllocError>
    ensures { OnOk result (file.new.items ≡ file.old.items ++ flat_map entry_bytes entries.now) }
{
    for entry in entries {
        push_entry(file, *entry)?;
    }
    Ok(())
}
