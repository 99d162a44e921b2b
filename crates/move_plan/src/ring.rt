//! Rings of parts that stand in one another's places.

ghost use Rattle.std.specs.Prelude.{◌≡◌, ◌≢◌, ◌<◌, length, slice_index, All, IfOk};
ghost use Rattle.vol_layout.specs.Layouts.{AreDistinct};
ghost use Rattle.vol_layout.specs.Rings.{IsRing};

use std::alloc::{AllocError, Allocator, Global};
use std::marker::Model;

/// Parts each of which stands at the place of the next, and the last at that of the first.
#[derive(Drop)]
pub struct Ring<A: Allocator = Global> {
    parts: Vec<u32, A>,
}

impl<A: Allocator> Model for Ring<A> {
    ghost use Rattle.std.specs.Prelude.{ℕ, List};

    ghost Value = { List ℕ };

    ghost view = { λ ring. ring.parts.items };
}

impl<A: Allocator> Ring<A> {
    /// The ring of these parts.
    pub fn new(parts: Vec<u32, A>) -> Ring<A>
        ensures { result ≡ parts.items }
    {
        Ring { parts }
    }

    /// The parts, each of which stands at the place of the next.
    pub fn parts(&self) -> &[u32]
        ensures { result.now ≡ self.now }
    {
        self.parts.as_slice()
    }
}

/// The ring of a misplaced part, from that part on, where each part stands at the place of some
/// part.
pub fn ring_from<A: Allocator>(alloc: A, at: &[u32], first: u32) -> Result<Ring<A>, AllocError>
    requires distinct { AreDistinct at.now }
    requires within { All (λ place. place < length at.now) at.now }
    requires part { first < length at.now }
    requires away { slice_index at.now first ≢ first }
    ensures ring { IfOk result (λ ring. IsRing at.now ring) }
    ensures first { IfOk result (λ ring. slice_index ring 0 ≡ first) }
{
    let mut parts = Vec::with_capacity(alloc, 2)?;
    parts.push(first)?;
    let mut next = at[first as usize];
    while next != first {
        parts.push(next)?;
        next = at[next as usize];
    }
    Ok(Ring::new(parts))
}
