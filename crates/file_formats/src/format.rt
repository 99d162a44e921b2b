// The trait of formats whose files commands work on.
use crate::{FileName, ListEntry, StoredName};
use std::alloc::{AllocError, Allocator};
use vol_format::Format;

/// A format of volumes whose files are named, listed and read. Each call is exact over the directory that `volume`
/// read.
pub trait FileFormat: Format {
    ghost use Rattle.std.specs.Prelude.{◌≡◌, ◌<◌, IfOk};
    ghost use Rattle.vol_format.specs.Directory.{entries, entry_of};
    ghost use Rattle.file_formats.specs.FileNames.{name_view};
    ghost use Rattle.file_formats.specs.Files.{FileMeaning};
    ghost use Rattle.file_formats.specs.Listing.{free_count};

    ghost files: { Self → FileMeaning };

    /// Whether a name is that of an entry.
    fn matches(&self, volume: &Self::Volume, file: u32, name: FileName<'_>) -> bool
        requires { file < entries (Self.directory self.now volume.now) }
        ensures { result ≡ (files self.now).matches (name_view name.entry)
            (entry_of (Self.directory self.now volume.now) file).path };

    /// What a listing shows of an entry.
    ///
    /// # Errors
    /// Want of memory alone.
    fn list_entry<A: Allocator>(
        &self,
        alloc: A,
        volume: &Self::Volume,
        file: u32,
    ) -> Result<ListEntry<A>, AllocError>
        requires { file < entries (Self.directory self.now volume.now) }
        ensures { IfOk result (λ listed.
            listed ≡ (files self.now).shown (entry_of (Self.directory self.now volume.now) file)) };

    /// The volume's name, as it is stored; for DOS the one byte of its number.
    ///
    /// # Errors
    /// Want of memory alone.
    fn name<A: Allocator>(
        &self,
        alloc: A,
        volume: &Self::Volume,
    ) -> Result<StoredName<A>, AllocError>
        ensures { IfOk result (λ name. name ≡ (Self.directory self.now volume.now).name) };

    /// How many places are marked free.
    fn free_count(&self, volume: &Self::Volume) -> u32
        ensures { result ≡ free_count (Self.directory self.now volume.now) };

    /// The body of a file whose units hold this text.
    ///
    /// # Errors
    /// Want of memory alone.
    fn body<A: Allocator>(
        &self,
        volume: &Self::Volume,
        file: u32,
        text: Vec<u8, A>,
    ) -> Result<Vec<u8, A>, AllocError>
        requires { file < entries (Self.directory self.now volume.now) }
        ensures { IfOk result (λ body.
            body.items ≡ (files self.now).body (entry_of (Self.directory self.now volume.now) file).bytes text.items) };
}
