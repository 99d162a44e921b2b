// Formats whose entries stand in a tree of directories.
ghost use Rattle.std.specs.Prelude.{◌≡◌, ◌<◌, length};

use dos_format::{Dos33, DosVolume};
use file_formats::FileFormat;
use pro_format::{ProVolume, Prodos};
use std::alloc::Allocator;

/// A format whose entries stand in a tree of directories. Each call is exact over the directory that `volume` read.
pub trait TreeFormat: FileFormat {
    ghost use Rattle.std.specs.Prelude.{◌≡◌, ◌<◌, ◌≤◌, List, ℕ, length};
    ghost use Rattle.vol_format.specs.Directory.{Listed, entries, entry_of};
    ghost use Rattle.volume_extract.specs.Items.{IsAbove};

    ghost own: { Self → Listed → List ℕ };

    /// The own name of an entry, of at most 30 bytes.
    fn own_name<'a>(&self, volume: &'a Self::Volume, entry: u32) -> &'a [u8]
        requires { entry < entries (Self.directory self.now volume.now) }
        ensures name { result.now ≡ own self.now (entry_of (Self.directory self.now volume.now) entry) }
        ensures short { length result.now ≤ 30 };

    /// The entry of the directory in which an entry stands, if that is not the volume's. It stands before the entry.
    fn above(&self, volume: &Self::Volume, entry: u32) -> Option<u32>
        requires { entry < entries (Self.directory self.now volume.now) }
        ensures { IsAbove (own self.now) (Self.directory self.now volume.now) entry result };
}

impl<A: Allocator + Copy> TreeFormat for Dos33<A> {
    ghost use Rattle.volume_extract.specs.Names.{dos_own};

    ghost own = { λ _. dos_own };

    /// The 30 bytes of the name, as they are stored.
    fn own_name<'a>(&self, volume: &'a DosVolume<A>, entry: u32) -> &'a [u8] {
        volume.catalog().entries()[entry as usize].name()
    }

    fn above(&self, _volume: &DosVolume<A>, _entry: u32) -> Option<u32> {
        None
    }
}

impl<A: Allocator + Copy> TreeFormat for Prodos<A> {
    ghost use Rattle.volume_extract.specs.Names.{pro_own};

    ghost own = { λ _. pro_own };

    /// The bytes of the entry's name, as many as its length says.
    fn own_name<'a>(&self, volume: &'a ProVolume<A>, entry: u32) -> &'a [u8] {
        volume.directory().entries()[entry as usize].name()
    }

    fn above(&self, volume: &ProVolume<A>, entry: u32) -> Option<u32> {
        volume.directory().parent(entry)
    }
}
