// What is written into a ProDOS volume, and where the pointer to a part stands.
ghost use Rattle.std.specs.Prelude.{◌≡◌, ◌<◌, ◌-◌, ◌%◌, ◌^◌};
ghost use Rattle.pro_format.specs.Pro.{bit_byte};

use crate::places::BITS;
use crate::prodos::Prodos;
use crate::volume::ProVolume;
use a2_device::Part;
use pro_dir::set_key;
use pro_tree::{part_above, set_pointer, slot};
use std::alloc::Allocator;
use vol_format::{Format, Holder, WritableFormat};
use vol_layout::Layout;

// The byte of a block of the map that has the bit of a place, and this bit.
fn bit_of(place: u32) -> (usize, u8)
    ensures byte { result.0 ≡ bit_byte place }
    ensures within { result.0 < 512 }
    ensures bit { result.1 ≡ 2 ^ (7 - place % 8) }
{
    ((place % BITS / 8) as usize, 1 << (7 - place % 8))
}

impl<A: Allocator + Copy> WritableFormat for Prodos<A> {
    ghost use Rattle.pro_format.specs.lemmas.ProMovable.{pro_is_movable};
    ghost use Rattle.pro_format.specs.lemmas.ProWritable.{pro_is_writable};

    ghost movable = { λ f. pro_is_movable f };

    ghost writable = { λ f. pro_is_writable f };

    /// An index's pointer to a part is found by going back over at most the parts of its file.
    fn holder<B: Allocator>(
        &self,
        volume: &ProVolume<A>,
        parts: &[Part],
        layout: &Layout<B>,
        k: u32,
    ) -> Holder {
        let part = parts[k as usize];
        match part_above(parts, k) {
            None => self.entry_at(volume, part.file),
            Some(above) => Holder {
                entry: false,
                place: self
                    .available(volume, layout.at()[above as usize])
                    .unwrap_or(0),
                slot: slot(&part),
            },
        }
    }

    fn put_pointer(&self, unit: &mut [u8], holder: Holder, place: u32) {
        if holder.entry {
            set_key(unit, holder.slot, place);
        } else {
            set_pointer(unit, holder.slot, place);
        }
    }

    fn map_unit(&self, volume: &ProVolume<A>, place: u32) -> u32 {
        volume.map.unit_of(place)
    }

    fn mark(&self, unit: &mut [u8], place: u32) {
        let (at, bit) = bit_of(place);
        unit[at] &= !bit;
    }

    fn release(&self, unit: &mut [u8], place: u32) {
        let (at, bit) = bit_of(place);
        unit[at] |= bit;
    }
}
