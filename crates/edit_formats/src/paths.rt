// Where the path of a new ProDOS file leads.
ghost use Rattle.std.specs.Prelude.{◌≡◌, ◌≤◌, ◌<◌, length, IfSome, IfNone};
ghost use Rattle.pro_dir.specs.Listed.{directory_of};
ghost use Rattle.pro_dir.specs.Paths.{folded};
ghost use Rattle.edit_formats.specs.ProNames.{is_name_in};
ghost use Rattle.edit_formats.specs.ProSaves.{
  above_name,
  is_directory_named,
  last_name,
  name_start,
  IsDirectoryAbove,
  IsFirstDirectory,
  IsNoDirectory,
};

use crate::{is_name_in, pro_name};
use pro_dir::{Entry, VolumeDir};
use std::alloc::Allocator;

/// The key block of the volume's directory.
const VOLUME_KEY: u32 = 2;

// Where the last name of a path begins.
fn name_start(path: &[u8]) -> usize
    ensures value { result ≡ name_start path.now }
    ensures within { result ≤ length path.now }
{
    let mut start = 0;
    for at in 0..path.len() {
        if path[at] == b'/' {
            start = at + 1;
        }
    }
    start
}

/// The last name of a path: what stands behind its last slash.
pub fn last_name(path: &[u8]) -> &[u8]
    ensures { result.now ≡ last_name path.now }
{
    &path[name_start(path)..]
}

// Whether an entry is a subdirectory's, and has a path.
fn is_directory_named<A: Allocator>(walked: &VolumeDir<A>, path: &[u8], number: u32) -> bool
    requires { number < length (directory_of walked.now).entries }
    ensures { result ≡ is_directory_named (directory_of walked.now).entries path.now number }
{
    walked.entries()[number as usize].is_directory() && walked.has_path(number, path)
}

// The key block of the first subdirectory with a path.
pub(crate) fn find_directory<A: Allocator>(walked: &VolumeDir<A>, path: &[u8]) -> Option<u32>
    ensures some { IfSome result (IsFirstDirectory (directory_of walked.now).entries path.now) }
    ensures none { IfNone result (IsNoDirectory (directory_of walked.now).entries (Some path.now)) }
{
    let entries = walked.entries();
    for number in 0..entries.len() {
        if is_directory_named(walked, path, number as u32) {
            return Some(entries[number].key());
        }
    }
    None
}

// The key block of the directory to which the path of a new file leads.
pub(crate) fn directory_above<A: Allocator>(walked: &VolumeDir<A>, path: &[u8]) -> Option<u32>
    ensures some { IfSome result (IsDirectoryAbove (directory_of walked.now).entries (above_name path.now)) }
    ensures none { IfNone result (IsNoDirectory (directory_of walked.now).entries (above_name path.now)) }
{
    let start = name_start(path);
    if start == 0 {
        return Some(VOLUME_KEY);
    }
    find_directory(walked, &path[..start - 1])
}

// Whether an entry of a directory has a name.
pub(crate) fn is_in_use(entries: &[Entry], key: u32, name: &[u8]) -> bool
    requires { length name.now ≤ 15 }
    ensures { result ≡ is_name_in key (folded name.now) entries.now }
{
    let stored = pro_name(name);
    is_name_in(key, &stored[..name.len()], entries)
}
