// Tables with an entry for each place, which are cleared by what has marked them.
ghost use Rattle.std.specs.Prelude.{◌≡◌, false, length, replicate, slice_set};
ghost use Rattle.a2_device.specs.declared.part.Part.{Part};
ghost use Rattle.vol_check.specs.Known.{none_known, place_of as place_in};
ghost use Rattle.vol_check.specs.Marks.{IsMarkedBy};

use crate::known::{Known, place_of};
use a2_device::{Fault, Part};

// Puts the entry of a place, if the table has one.
fn put<T: Copy>(table: &mut [T], place: u32, entry: T)
    ensures { table.new ≡ slice_set table.old place entry }
{
    let place = place as usize;
    if place < table.len() {
        table[place] = entry;
    }
}

/// Clears a table of places that were met for these parts.
pub fn forget_parts(visited: &mut [bool], parts: &[Part])
    ensures { IsMarkedBy false (λ (part : Part). part.place) parts.now visited.old
        → visited.new ≡ replicate (length visited.old) false }
{
    for part in parts {
        put(visited, part.place, false);
    }
}

/// Clears a table in which these faults were noted.
pub fn forget_faults(known: &mut [Known], faults: &[Fault])
    ensures { IsMarkedBy none_known place_in faults.now known.old
        → known.new ≡ replicate (length known.old) none_known }
{
    for fault in faults {
        put(known, place_of(*fault), Known::nothing());
    }
}
