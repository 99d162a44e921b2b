// A volume that was read, and how it is extracted.
ghost use Rattle.std.specs.Prelude.{◌≡◌, ◌<◌};
ghost use Rattle.vol_format.specs.Directory.{entries, entry_of, is_directory};

use crate::texts::Texts;
use crate::tree_format::TreeFormat;
use host_folders::Naming;
use vol_format::Link;
use vol_layout::PlaceForm;

/// A volume that was read, and how it is extracted: how its entries are named on the host, what becomes of readable
/// forms, and how many bytes may be made.
#[derive(Drop)]
pub struct Opened<'a, F: TreeFormat> {
    pub format: &'a F,
    /// What its places are called.
    pub form: PlaceForm,
    pub naming: Naming,
    pub texts: Texts,
    /// The most bytes that all that is made may have.
    pub most: u64,
    pub volume: F::Volume,
}

/// Whether an entry is that of a directory.
pub fn is_folder<F: TreeFormat>(opened: &Opened<'_, F>, entry: u32) -> bool
    requires { entry < entries (F.directory opened.now.format.now opened.now.volume) }
    ensures { result ≡ is_directory (entry_of (F.directory opened.now.format.now opened.now.volume) entry) }
{
    matches!(opened.format.root(&opened.volume, entry), Link::Directory)
}
