//! The table of the part at each place, and the search for two parts at one place.

ghost use Rattle.std.specs.Prelude.{◌<◌, ◌↔◌, All, IfOk, IfSome, IfNone, IsTrue};
ghost use Rattle.vol_layout.specs.Layouts.{AreDistinct};
ghost use Rattle.vol_layout.specs.Table.{IsTableOf};

use std::alloc::{AllocError, Allocator};
use std::collections::BTreeSet;

/// The table of the part at each of so many places, or none where two parts stand at one place.
pub fn table_of<A: Allocator>(
    alloc: A,
    at: &[u32],
    places: u32,
) -> Result<Option<Vec<Option<u32>, A>>, AllocError>
    requires { All (λ place. place < places) at.now }
    ensures distinct { IfOk result (λ made. IfSome made (λ _. AreDistinct at.now)) }
    ensures table { IfOk result
        (λ made. IfSome made (λ table. IsTableOf at.now places table.items)) }
    ensures repeat { IfOk result (λ made. IfNone made (AreDistinct at.now → ⊥)) }
{
    let mut table = vec![in alloc; None; places as usize]?;
    for (part, place) in at.iter().enumerate() {
        let place = *place as usize;
        if table[place].is_some() {
            return Ok(None);
        }
        table[place] = Some(part as u32);
    }
    Ok(Some(table))
}

/// Whether no two of these numbers are equal, however large they are.
pub fn are_distinct<A: Allocator + Copy>(alloc: A, numbers: &[u32]) -> Result<bool, AllocError>
    ensures { IfOk result (λ yes. IsTrue yes ↔ AreDistinct numbers.now) }
{
    let set: BTreeSet<u32, A> = numbers.iter().copied().collect(alloc)?;
    Ok(set.len() == numbers.len())
}
