// Reading a file.
ghost use Rattle.std.specs.Prelude.{◌≡◌, ◌<◌, ◌+◌, ◌↔◌, List, IfNone, IfSome, IsTrue, length};
ghost use Rattle.apple_single.specs.Format.{part};
ghost use Rattle.apple_single.specs.Reading.{HasNone, IsTable};
ghost use Rattle.apple_single.specs.Single.{AreSound, CanBeRead, IsInfo, IsPart, IsSingle, IsSound};

use crate::entries::{DATA_FORK, Entry, FILE_INFO, RESOURCE_FORK, find, has, split_entry};
use crate::header::table_of;
use crate::single::{FileInfo, Single};

// Whether an entry lies within the file, and is no resource fork with bytes in it.
fn is_sound(file: &[u8], entry: Entry) -> bool
    ensures { IsTrue result ↔ IsSound file.now entry }
{
    entry.end() <= file.len() && (entry.id != RESOURCE_FORK || entry.size == 0)
}

// Whether each entry is sound, and no ID stands twice in the table. There are 64 entries at most, so that each may be
// compared with all behind it.
fn are_sound(file: &[u8], table: &[u8]) -> bool
    ensures { (entries : List Entry) → IsTable table.now entries → (IsTrue result ↔ AreSound file.now entries) }
{
    let mut rest = table;
    while let Some((entry, more)) = split_entry(rest) {
        if !is_sound(file, entry) {
            return false;
        }
        if has(more, entry.id) {
            return false;
        }
        rest = more;
    }
    true
}

// The bytes of an entry, where it lies within the file.
fn part(file: &[u8], entry: Entry) -> Option<&[u8]>
    ensures some { IfSome result (λ bytes. bytes.now ≡ part file.now entry) }
    ensures none { IfNone result (length file.now < entry.offset + entry.size) }
{
    file.get(entry.offset as usize..entry.end())
}

// The bytes of the entry of an ID.
fn part_of<'a>(file: &'a [u8], table: &[u8], id: u32) -> Option<&'a [u8]>
    ensures some { IfSome result (λ bytes. (entries : List Entry) → IsTable table.now entries
        → IsPart file.now entries id bytes.now) }
    ensures none { IfNone result ((entries : List Entry) → IsTable table.now entries → AreSound file.now entries
        → HasNone entries id) }
{
    let entry = find(table, id)?;
    part(file, entry)
}

// The file info that bytes begin with.
fn info_of(bytes: &[u8]) -> Option<FileInfo>
    ensures some { IfSome result (IsInfo bytes.now) }
    ensures none { IfNone result ((info : FileInfo) → ¬ IsInfo bytes.now info) }
{
    match bytes {
        [high, low, 0, file_type, 0, 0, aux_high, aux_low, ..] => Some(FileInfo {
            access: u16::from_be_bytes([*high, *low]),
            file_type: *file_type,
            aux_type: u16::from_be_bytes([*aux_high, *aux_low]),
        }),
        _ => None,
    }
}

/// What an AppleSingle file of version 2 says: its data fork, and its ProDOS file info, where it has any. `None` where
/// the bytes are no AppleSingle file whose data fork and ProDOS file info can be read: another header, more than 64
/// entries, an ID that stands twice, an entry that reaches past the end of the file, a resource fork that is not empty,
/// no data fork, or a file info that is too short or says what ProDOS can't.
pub fn read(file: &[u8]) -> Option<Single<'_>>
    ensures some { IfSome result (λ single. IsSingle file.now single.info single.fork.now) }
    ensures none { IfNone result (¬ CanBeRead file.now) }
{
    let table = table_of(file)?;
    if !are_sound(file, table) {
        return None;
    }
    let fork = part_of(file, table, DATA_FORK)?;
    let Some(bytes) = part_of(file, table, FILE_INFO) else {
        return Some(Single { info: None, fork });
    };
    let info = info_of(bytes)?;
    Some(Single {
        info: Some(info),
        fork,
    })
}
