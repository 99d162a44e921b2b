// What is read of a ProDOS volume.
ghost use Rattle.std.specs.Prelude.{◌≡◌, ◌<◌, ◌≤◌, length, map, IfOk, IfErr, IsTrue};
ghost use Rattle.pro_dir.specs.Listed.{directory_of};
ghost use Rattle.pro_format.specs.Sound.{IsFitted};

use pro_bitmap::Bitmap;
use pro_dir::VolumeDir;
use std::alloc::{Allocator, Global};
use vol_format::PlaceOrder;

/// The directories and the map of a volume, and which of its places are available.
pub struct ProVolume<A: Allocator = Global> {
    pub(crate) directory: VolumeDir<A>,
    pub(crate) map: Bitmap<A>,
    pub(crate) system: Vec<bool, A>,
    pub(crate) available: PlaceOrder<A>,
    ghost fitted: { IsFitted (directory_of directory) map system.items available },
}

impl<A: Allocator> Drop for ProVolume<A> {
    fn drop(self) {
        let ProVolume {
            directory: _,
            map: _,
            system: _,
            available: _,
        } = self;
    }
}

impl<A: Allocator> ProVolume<A> {
    ghost use Rattle.pro_format.specs.ProVolume.{walked_of, map_in};

    /// The directories.
    pub fn directory(&self) -> &VolumeDir<A>
        ensures { result.now ≡ walked_of self.now }
    {
        &self.directory
    }

    /// The map.
    pub fn map(&self) -> &Bitmap<A>
        ensures { result.now ≡ map_in self.now }
    {
        &self.map
    }
}
