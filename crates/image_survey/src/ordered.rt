// The files of a volume in the order of their paths.
ghost use Rattle.std.specs.Prelude.{◌≡◌, ◌<◌, ◌≤◌, IfNone, IfOk, IfSome, count_by, is_some, length};
ghost use Rattle.std.specs.List.Sorted.{IsPermutation};
ghost use Rattle.vol_format.specs.Directory.{entries, entry_of};
ghost use Rattle.volume_compare.specs.Pairs.{file_path, paths_of};
ghost use Rattle.image_survey.specs.Content.{most_path_bytes};
ghost use Rattle.image_survey.specs.Ordered.{AreInOrder, path_bytes};
ghost use Rattle.image_survey.specs.Naming.{AreNamed, AreSorted};

use file_formats::{FileFormat, StoredName};
use std::alloc::{AllocError, Global};
use vol_format::{Format, Link};

/// The most bytes that the paths of the files of a volume may have in all.
const MOST_PATH_BYTES: usize = 16_777_216;

/// The file of an entry, with its path.
#[derive(Drop)]
pub struct Named {
    /// The bytes of its path, as they are stored.
    pub path: StoredName,
    /// The number of its entry.
    pub file: u32,
}

// The stored path of the file of an entry; `None` for a directory.
fn file_path<F: FileFormat>(
    alloc: Global,
    format: &F,
    volume: &F::Volume,
    file: u32,
) -> Result<Option<StoredName>, AllocError>
    requires { file < entries (F.directory format.now volume.now) }
    ensures { IfOk result (λ path. path
        ≡ file_path (F.files format.now) (entry_of (F.directory format.now volume.now) file)) }
{
    if matches!(format.root(volume, file), Link::Directory) {
        return Ok(None);
    }
    Ok(Some(format.list_entry(alloc, volume, file)?.path))
}

// The files of a volume with their paths, in directory order; `None` where the paths have too many bytes in all.
fn named_files<F: FileFormat>(
    alloc: Global,
    format: &F,
    volume: &F::Volume,
) -> Result<Option<Vec<Named>>, AllocError>
    ensures few { IfOk result (λ found. IfSome found (λ named.
        path_bytes (paths_of (F.files format.now) (F.directory format.now volume.now)) ≤ most_path_bytes)) }
    ensures named { IfOk result (λ found. IfSome found (λ named. AreNamed
        (paths_of (F.files format.now) (F.directory format.now volume.now))
        (length (paths_of (F.files format.now) (F.directory format.now volume.now))) named.items)) }
    ensures many { IfOk result (λ found. IfNone found (most_path_bytes
        < path_bytes (paths_of (F.files format.now) (F.directory format.now volume.now)))) }
{
    let mut named = Vec::new(alloc);
    let mut left = MOST_PATH_BYTES;
    for file in 0..format.entries(volume) {
        if let Some(path) = file_path(alloc, format, volume, file)? {
            let Some(rest) = left.checked_sub(path.as_bytes().len()) else {
                return Ok(None);
            };
            left = rest;
            named.push(Named { path, file })?;
        }
    }
    Ok(Some(named))
}

// Puts files into the order of their paths, those of one path into that of the directory.
fn sort(named: &mut Vec<Named>)
    ensures same { IsPermutation named.old.items named.new.items }
    ensures sorted { AreSorted named.new.items }
{
    named.sort_unstable_by(|one, other| {
        one.path
            .as_bytes()
            .cmp(other.path.as_bytes())
            .then(one.file.cmp(&other.file))
    });
}

/// The files of a volume in rising order of their paths; `None` where the paths have too many bytes in all.
///
/// # Errors
/// Want of memory alone.
pub(crate) fn files_in_order<F: FileFormat>(
    alloc: Global,
    format: &F,
    volume: &F::Volume,
) -> Result<Option<Vec<Named>>, AllocError>
    ensures few { IfOk result (λ found. IfSome found (λ named.
        path_bytes (paths_of (F.files format.now) (F.directory format.now volume.now)) ≤ most_path_bytes)) }
    ensures ordered { IfOk result (λ found. IfSome found (λ named. AreInOrder
        (paths_of (F.files format.now) (F.directory format.now volume.now)) named.items)) }
    ensures many { IfOk result (λ found. IfNone found (most_path_bytes
        < path_bytes (paths_of (F.files format.now) (F.directory format.now volume.now)))) }
{
    match named_files(alloc, format, volume)? {
        Some(mut named) => {
            sort(&mut named);
            Ok(Some(named))
        }
        None => Ok(None),
    }
}
