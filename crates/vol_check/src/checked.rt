// An accepted volume.
ghost use Rattle.std.specs.Prelude.{◌≡◌};
ghost use Rattle.vol_check.specs.Told.{told_of, volume_of};

use a2_device::Part;
use std::alloc::{Allocator, Global};
use vol_layout::Layout;

/// An accepted volume: its header, directory and map, how many files it has, their parts in order, where these stand
/// among the available places, and which of these places are lost.
pub struct Checked<V: Drop, A: Allocator = Global> {
    pub(crate) volume: V,
    pub(crate) files: u32,
    pub(crate) parts: Vec<Part, A>,
    pub(crate) layout: Layout<A>,
    pub(crate) lost: Vec<u32, A>,
}

impl<V: Drop, A: Allocator> Drop for Checked<V, A> {
    fn drop(self) {
        let Checked {
            volume: _,
            files: _,
            parts: _,
            layout: _,
            lost: _,
        } = self;
    }
}

impl<V: Drop, A: Allocator> Checked<V, A> {
    /// The header, the directory and the map.
    pub fn volume(&self) -> &V
        ensures { result.now ≡ volume_of self.now }
    {
        &self.volume
    }

    /// How many files the volume has, without directories.
    pub fn files(&self) -> u32
        ensures { result ≡ (told_of self.now).files }
    {
        self.files
    }

    /// The parts of the files: files in directory order, and each file's parts in order.
    pub fn parts(&self) -> &[Part]
        ensures { result.now ≡ (told_of self.now).parts }
    {
        self.parts.as_slice()
    }

    /// Which available place each part stands at, by number.
    pub fn layout(&self) -> &Layout<A>
        ensures { result.now ≡ (told_of self.now).layout }
    {
        &self.layout
    }

    /// The places that are available, marked used and no part's, in available order.
    pub fn lost(&self) -> &[u32]
        ensures { result.now ≡ (told_of self.now).lost }
    {
        self.lost.as_slice()
    }

    /// How many places are available.
    pub fn available(&self) -> u32
        ensures { result ≡ (told_of self.now).layout.places }
    {
        self.layout.places()
    }

    /// The volume, its parts, their layout and the lost places.
    pub fn into_parts(self) -> (V, Vec<Part, A>, Layout<A>, Vec<u32, A>)
        ensures volume { result.0 ≡ volume_of self }
        ensures parts { result.1.items ≡ (told_of self).parts }
        ensures layout { result.2 ≡ (told_of self).layout }
        ensures lost { result.3.items ≡ (told_of self).lost }
    {
        let Checked {
            volume,
            files: _,
            parts,
            layout,
            lost,
        } = self;
        (volume, parts, layout, lost)
    }
}
