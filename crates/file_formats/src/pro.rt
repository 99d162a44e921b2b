// ProDOS as a format of files.
ghost use Rattle.std.specs.Prelude.{◌≡◌, ◌<◌, length, IfOk};
ghost use Rattle.pro_dir.specs.Listed.{directory_of};
ghost use Rattle.pro_dir.specs.Paths.{path_of};
ghost use Rattle.vol_format.specs.Directory.{entries, entry_of};
ghost use Rattle.pro_format.specs.Pro.{directory_with};
ghost use Rattle.pro_format.specs.ProVolume.{map_in, system_of, tree_of};
ghost use Rattle.file_formats.specs.FileNames.{name_view};
ghost use Rattle.file_formats.specs.ProFiles.{pro_body, pro_matches, pro_shown};
ghost use Rattle.file_formats.specs.ProListing.{pro_list_entry};

use crate::{FileFormat, FileName, ListEntry, StoredName};
use pro_dir::{Entry, VolumeDir};
use pro_format::{ProVolume, Prodos};
use std::alloc::{AllocError, Allocator};

// Whether a name is that of an entry.
fn is_name<A: Allocator>(directory: &VolumeDir<A>, entry: u32, name: FileName<'_>) -> bool
    requires { entry < length (directory_of directory.now).entries }
    ensures { result ≡ pro_matches (name_view name.entry) (path_of (directory_of directory.now).entries entry) }
{
    match name {
        FileName::Path(path) => directory.has_path(entry, path),
        FileName::Stored(bytes) => directory.has_stored_path(entry, bytes),
    }
}

// What is shown of an entry that has this path.
fn with_path<A: Allocator>(entry: &Entry, path: Vec<u8, A>) -> ListEntry<A>
    ensures { result ≡ pro_list_entry path.items entry.now }
{
    ListEntry {
        locked: !entry.access().is_unlocked(),
        kind: entry.kind(),
        size: entry.blocks_used(),
        eof: entry.eof(),
        access: entry.access().byte(),
        aux: entry.aux(),
        created: entry.created(),
        modified: entry.modified(),
        directory: entry.is_directory(),
        path: StoredName::of(path),
    }
}

/// What a listing shows of an entry, its path in this vector; one with room for it takes no memory.
///
/// # Errors
/// Want of memory alone.
pub fn listed_entry<A: Allocator, B: Allocator>(
    volume: &ProVolume<A>,
    entry: u32,
    mut path: Vec<u8, B>,
) -> Result<ListEntry<B>, AllocError>
    requires { entry < entries (directory_with (system_of volume.now) (tree_of volume.now) (map_in volume.now).units) }
    ensures { IfOk result (λ listed. listed ≡ pro_shown
        (entry_of (directory_with (system_of volume.now) (tree_of volume.now) (map_in volume.now).units) entry)) }
{
    volume.directory().path_into(entry, &mut path)?;
    Ok(with_path(&volume.directory().entries()[entry as usize], path))
}

// So many bytes of a text, with zeros behind it where it has less.
fn sized<A: Allocator>(mut text: Vec<u8, A>, len: usize) -> Result<Vec<u8, A>, AllocError>
    ensures { IfOk result (λ body. body.items ≡ pro_body len text.items) }
{
    text.resize(len, 0)?;
    Ok(text)
}

impl<A: Allocator + Copy> FileFormat for Prodos<A> {
    ghost use Rattle.file_formats.specs.ProFiles.{pro_files};

    ghost files = { λ f. pro_files };

    fn matches(&self, volume: &ProVolume<A>, file: u32, name: FileName<'_>) -> bool {
        is_name(volume.directory(), file, name)
    }

    fn list_entry<B: Allocator>(
        &self,
        alloc: B,
        volume: &ProVolume<A>,
        file: u32,
    ) -> Result<ListEntry<B>, AllocError> {
        listed_entry(volume, file, Vec::new(alloc))
    }

    fn name<B: Allocator>(
        &self,
        alloc: B,
        volume: &ProVolume<A>,
    ) -> Result<StoredName<B>, AllocError> {
        StoredName::copy_of(alloc, volume.directory().name())
    }

    fn free_count(&self, volume: &ProVolume<A>) -> u32 {
        volume.map().free_count()
    }

    fn body<B: Allocator>(
        &self,
        volume: &ProVolume<A>,
        file: u32,
        text: Vec<u8, B>,
    ) -> Result<Vec<u8, B>, AllocError> {
        let entry = &volume.directory().entries()[file as usize];
        sized(text, entry.eof() as usize)
    }
}
