// What is written into a DOS 3.3 volume, and where the pointer to a part stands.
ghost use Rattle.std.specs.Prelude.{◌≡◌, ◌<◌, ℕ, length, IfSome, IfNone};
ghost use Rattle.dos_format.specs.DosHolders.{IsListBefore, dos_slot};

use crate::dos::{Dos33, DosVolume};
use a2_device::{Part, PartKind};
use dos_catalog::set_pointer;
use dos_tslist::{PAIRS, set_next, set_pair};
use dos_vtoc::{VTOC_PLACE, set_free, set_used};
use std::alloc::Allocator;
use vol_format::{Format, Holder, WritableFormat};
use vol_layout::Layout;

// The list that names part k: the nearest list before it, if that is of the same file. A list names at most 122 units
// of the body, so in the parts of a volume it is at most that many parts away.
fn list_before(parts: &[Part], k: u32) -> Option<u32>
    requires { k < length parts.now }
    ensures some { IfSome result (λ list. IsListBefore parts.now k list) }
    ensures none { IfNone result ((list : ℕ) → IsListBefore parts.now k list → ⊥) }
{
    for list in (0..k).rev() {
        if parts[list as usize].kind == PartKind::List {
            if parts[list as usize].file == parts[k as usize].file {
                return Some(list);
            }
            return None;
        }
    }
    None
}

// The pointer of a list that names a part.
fn slot_of(part: &Part) -> u32
    ensures value { result ≡ dos_slot part.now.kind part.now.number }
    ensures within { result < 123 }
{
    match part.kind {
        PartKind::List => PAIRS,
        _ => part.number % PAIRS,
    }
}

impl<A: Allocator + Copy> WritableFormat for Dos33<A> {
    ghost use Rattle.dos_format.specs.lemmas.DosMovable.{dos_is_movable};
    ghost use Rattle.dos_format.specs.lemmas.DosWritable.{dos_is_writable};

    ghost movable = { λ f. dos_is_movable f.data_disk f.reserved };

    ghost writable = { λ f. dos_is_writable f.data_disk f.reserved };

    /// A list's pointer to a part is found by going back over at most 122 parts.
    fn holder<B: Allocator>(
        &self,
        volume: &DosVolume<A>,
        parts: &[Part],
        layout: &Layout<B>,
        k: u32,
    ) -> Holder {
        let part = parts[k as usize];
        match list_before(parts, k) {
            None => self.entry_at(volume, part.file),
            Some(list) => Holder {
                entry: false,
                place: self
                    .available(volume, layout.at()[list as usize])
                    .unwrap_or(0),
                slot: slot_of(&part),
            },
        }
    }

    fn put_pointer(&self, unit: &mut [u8], holder: Holder, place: u32) {
        if holder.entry {
            set_pointer(unit, holder.slot, place);
        } else if holder.slot == PAIRS {
            set_next(unit, Some(place));
        } else {
            set_pair(unit, holder.slot, Some(place));
        }
    }

    fn map_unit(&self, _volume: &DosVolume<A>, _place: u32) -> u32 {
        VTOC_PLACE
    }

    fn mark(&self, unit: &mut [u8], place: u32) {
        set_used(unit, place);
    }

    fn release(&self, unit: &mut [u8], place: u32) {
        set_free(unit, place);
    }
}
