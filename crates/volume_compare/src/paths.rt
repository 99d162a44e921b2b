// The stored path of the file of an entry.
ghost use Rattle.std.specs.Prelude.{◌≡◌, ◌<◌, IfOk, Some};
ghost use Rattle.std.specs.Str.{bytes_eq};
ghost use Rattle.vol_format.specs.Directory.{entries, entry_of};
ghost use Rattle.volume_compare.specs.Pairs.{file_path, is_path};

use file_formats::{FileFormat, StoredName};
use std::alloc::{AllocError, Global};
use vol_format::Link;

/// The stored path of the file of an entry; `None` for a directory.
///
/// # Errors
/// Want of memory alone.
pub fn file_path<F: FileFormat>(
    alloc: Global,
    format: &F,
    volume: &F::Volume,
    file: u32,
) -> Result<Option<StoredName>, AllocError>
    requires { file < entries (F.directory format.now volume.now) }
    ensures { IfOk result (λ path. path
        ≡ file_path (F.files format.now) (entry_of (F.directory format.now volume.now) file)) }
{
    if matches!(format.root(volume, file), Link::Directory) {
        return Ok(None);
    }
    Ok(Some(format.list_entry(alloc, volume, file)?.path))
}

/// Whether an entry is that of a file with this stored path.
///
/// # Errors
/// Want of memory alone.
pub fn has_path<F: FileFormat>(
    alloc: Global,
    format: &F,
    volume: &F::Volume,
    file: u32,
    path: &[u8],
) -> Result<bool, AllocError>
    requires { file < entries (F.directory format.now volume.now) }
    ensures { IfOk result (λ has. has
        ≡ is_path path.now (file_path (F.files format.now) (entry_of (F.directory format.now volume.now) file))) }
{
    match file_path(alloc, format, volume, file)? {
        Some(other) => Ok(other.as_bytes() == path),
        None => Ok(false),
    }
}
