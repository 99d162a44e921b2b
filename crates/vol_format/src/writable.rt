// The trait of formats that are written.
use crate::{Format, Holder};
use a2_device::Part;
use std::alloc::Allocator;
use vol_layout::Layout;

/// A format whose pointers and marks can be written, so that parts can be moved.
pub trait WritableFormat: Format {
    ghost use Rattle.std.specs.Prelude.{◌≡◌, ◌<◌, true, false, length, All, List, ℕ};
    ghost use Rattle.a2_device.specs.declared.part.Part.{Part};
    ghost use Rattle.vol_format.specs.Accepted.{IsAccepted};
    ghost use Rattle.vol_format.specs.Directory.{Directory, entries, map_place, IsSameFrame};
    ghost use Rattle.vol_format.specs.Holding.{IsHolder, with_slot};
    ghost use Rattle.vol_format.specs.Laws.{IsMovable, IsWritable};
    ghost use Rattle.vol_format.specs.Standing.{Stands, part_now};

    /// Where the pointer to part k stands, where the parts stand as the layout says.
    fn holder<A: Allocator>(
        &self,
        volume: &Self::Volume,
        parts: &[Part],
        layout: &Layout<A>,
        k: u32,
    ) -> Holder
        requires part { k < length parts.now }
        requires size { length layout.now.at ≡ length parts.now }
        requires places { layout.now.places ≡ length (Self.directory self.now volume.now).available }
        requires files { All (λ (part : Part). part.file < entries (Self.directory self.now volume.now)) parts.now }

        ensures inside { result.place < (Self.directory self.now volume.now).places }
        ensures slot { (Self.meaning self.now).HasSlot result.entry result.slot }
        ensures holds { (present : Directory) (store : List (List ℕ))
            → IsSameFrame (Self.directory self.now volume.now) present
            → IsAccepted (Self.meaning self.now) present store
            → Stands (Self.meaning self.now) present store parts.now layout.now.at
            → IsHolder (Self.meaning self.now) present store
            (part_now parts.now present.available layout.now.at k) result };

    /// Writes the pointer that stands there, so that it names a place.
    fn put_pointer(&self, unit: &mut [u8], holder: Holder, place: u32)
        requires unit { length unit.old ≡ (Self.meaning self.now).unit_size }
        requires slot { (Self.meaning self.now).HasSlot holder.entry holder.slot }
        requires place { (places : ℕ) × (Self.meaning self.now).CanName places place }
        ensures { unit.new ≡ with_slot (Self.meaning self.now) unit.old holder place };

    /// The place of the map's unit that has the mark of a place.
    fn map_unit(&self, volume: &Self::Volume, place: u32) -> u32
        requires { place < (Self.directory self.now volume.now).places }
        ensures { result ≡ map_place (Self.directory self.now volume.now) place };

    /// Marks a place used, in the map's unit that has its mark.
    fn mark(&self, unit: &mut [u8], place: u32)
        requires unit { length unit.old ≡ (Self.meaning self.now).unit_size }
        requires place { (places : ℕ) × (Self.meaning self.now).Takes places × (place < places) }
        ensures { unit.new ≡ (Self.meaning self.now).with_free unit.old place false };

    /// Marks a place free, in the map's unit that has its mark.
    fn release(&self, unit: &mut [u8], place: u32)
        requires unit { length unit.old ≡ (Self.meaning self.now).unit_size }
        requires place { (places : ℕ) × (Self.meaning self.now).Takes places × (place < places) }
        ensures { unit.new ≡ (Self.meaning self.now).with_free unit.old place true };

    ghost movable: { (format : Self) → IsMovable (Self.meaning format) };

    ghost writable: { (format : Self) → IsWritable (Self.meaning format) };
}
