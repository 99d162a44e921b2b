//! Layouts that several tests share.

use std::alloc::{Allocator, Global};
use std::test::Fail;
use vol_layout::{Layout, LayoutError};

/// A layout with one hole and two rings.
pub const RINGS_AND_HOLE: [u32; 6] = [6, 2, 1, 4, 5, 3];

/// The layout of these places, all of its blocks from one allocator.
pub fn layout_in<A: Allocator + Copy>(
    alloc: A,
    at: &[u32],
    places: u32,
) -> Result<Layout<A>, LayoutError> {
    Layout::new(alloc, Vec::from_slice(alloc, at)?, places)
}

/// 65,000 parts in reverse order, with one more place.
pub fn in_reverse_order(alloc: Global) -> Result<Layout, Fail> {
    let mut at = Vec::with_capacity(alloc, 65_000)?;
    for k in 0..65_000u32 {
        at.push(64_999 - k)?;
    }
    Ok(Layout::new(alloc, at, 65_001)?)
}
