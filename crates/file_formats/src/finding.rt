// The file of a name.
ghost use Rattle.std.specs.Prelude.{◌≡◌, ◌<◌, IfSome, IfNone};
ghost use Rattle.vol_format.specs.Directory.{entries, entry_of};
ghost use Rattle.file_formats.specs.FileNames.{name_view};
ghost use Rattle.file_formats.specs.Files.{is_named, IsFirstNamed, NamesNone};

use crate::{FileFormat, FileName};
use vol_format::Link;

// Whether an entry is a file's, and has this name.
fn is_named<F: FileFormat>(format: &F, volume: &F::Volume, file: u32, name: FileName<'_>) -> bool
    requires { file < entries (F.directory format.now volume.now) }
    ensures { result ≡ is_named (F.files format.now) (name_view name.entry)
        (entry_of (F.directory format.now volume.now) file) }
{
    !matches!(format.root(volume, file), Link::Directory) && format.matches(volume, file, name)
}

/// The first file, in directory order, that has a name.
pub fn find<F: FileFormat>(format: &F, volume: &F::Volume, name: FileName<'_>) -> Option<u32>
    ensures found { IfSome result (IsFirstNamed (F.files format.now) (F.directory format.now volume.now)
        (name_view name.entry)) }
    ensures none { IfNone result (NamesNone (F.files format.now) (F.directory format.now volume.now)
        (name_view name.entry)) }
{
    for file in 0..format.entries(volume) {
        if is_named(format, volume, file, name) {
            return Some(file);
        }
    }
    None
}
