//! Layouts and the moves that change them.

use crate::moves::examples::layout_in;
use std::alloc::Global;
use std::test::Fail;
use test_volumes::Refusing;
use vol_layout::{Layout, LayoutError, Move, MoveError};

/// Why these places are no layout.
fn error_of(alloc: Global, at: &[u32], places: u32) -> Option<LayoutError> {
    layout_in(alloc, at, places).err()
}

#[test]
fn places_that_two_parts_have(rt: HostRuntime) {
    let repeat = Some(LayoutError::Repeat);
    assert!(rt; error_of(rt.alloc(), &[1, 1], 3) == repeat);
    assert!(rt; error_of(rt.alloc(), &[7, 5, 7], 3) == repeat);
    assert!(rt; error_of(rt.alloc(), &[0, 0], 1_000_001) == repeat);
}

#[test]
fn places_out_of_range(rt: HostRuntime) {
    let range = Some(LayoutError::Range);
    assert!(rt; error_of(rt.alloc(), &[3], 3) == range);
    assert!(rt; error_of(rt.alloc(), &[], 1_000_001) == range);
    assert!(rt; error_of(rt.alloc(), &[4_294_967_295, 0], 2) == range);
    assert!(rt; error_of(rt.alloc(), &[999_999], 1_000_000).is_none());
}

/// What a move of two parts over three places answers.
fn moved(alloc: Global, part: u32, to: u32) -> Result<Result<(), MoveError>, LayoutError> {
    let mut layout = layout_in(alloc, &[1, 0], 3)?;
    Ok(layout.apply(Move { part, to }))
}

#[test]
fn refused_moves(rt: HostRuntime) -> Result<(), Fail> {
    assert!(rt; moved(rt.alloc(), 0, 1)? == Err(MoveError::Taken));
    assert!(rt; moved(rt.alloc(), 2, 2)? == Err(MoveError::NoPart));
    assert!(rt; moved(rt.alloc(), 0, 3)? == Err(MoveError::Range));
    Ok(())
}

/// The layout after the first part of two is moved to the last of three places.
fn after_a_move(alloc: Global) -> Result<Layout, Fail> {
    let mut layout = layout_in(alloc, &[1, 0], 3)?;
    layout.apply(Move { part: 0, to: 2 })?;
    Ok(layout)
}

#[test]
fn a_move(rt: HostRuntime) -> Result<(), Fail> {
    let layout = after_a_move(rt.alloc())?;
    assert!(rt; layout.at() == [2, 0].as_slice() && layout.places() == 3);
    Ok(())
}

#[test]
fn a_copy_stays_as_it_was(rt: HostRuntime) -> Result<(), Fail> {
    let mut layout = layout_in(rt.alloc(), &[1, 0], 3)?;
    let before = layout.copy(rt.alloc())?;
    assert!(rt; layout.apply(Move { part: 0, to: 2 }).is_ok());
    assert!(rt; before.at() == [1, 0].as_slice());
    Ok(())
}

#[test]
fn the_part_at_each_place(rt: HostRuntime) -> Result<(), Fail> {
    let layout = after_a_move(rt.alloc())?;
    assert!(rt; layout.part_at(0) == Some(1));
    assert!(rt; layout.part_at(1).is_none());
    assert!(rt; layout.part_at(2) == Some(0));
    assert!(rt; layout.is_taken(0) && !layout.is_taken(1));
    Ok(())
}

/// Why these places are no layout over a heap, and how many blocks that asks for.
fn layout_over(heap: Refusing<Global>, at: &[u32], places: u32) -> (Option<LayoutError>, u64) {
    let error = layout_in(&heap, at, places).err();
    (error, heap.asked())
}

/// Where a block is refused, the answer is want of memory, and no block is asked after it.
#[test]
fn each_block_refused(rt: HostRuntime) {
    let cases = [([1, 0, 4].as_slice(), 5), (&[1, 9, 1], 5), (&[9, 1], 5)];
    for (at, places) in cases {
        let (error, asked) = layout_over(Refusing::none(rt.alloc()), at, places);
        assert!(rt; error != Some(LayoutError::Memory) && asked > 1);
        for before in 0..asked {
            let answer = layout_over(Refusing::one(rt.alloc(), before), at, places);
            assert!(rt; answer == (Some(LayoutError::Memory), before + 1));
        }
    }
}

/// Whether a layout is copied over a heap, and how many blocks that asks for.
fn copied_over(layout: &Layout, heap: Refusing<Global>) -> (bool, u64) {
    let is_copied = layout.copy(&heap).is_ok();
    (is_copied, heap.asked())
}

#[test]
fn each_block_of_a_copy_refused(rt: HostRuntime) -> Result<(), Fail> {
    let layout = layout_in(rt.alloc(), &[1, 0, 4], 5)?;
    for before in 0..2u64 {
        let answer = copied_over(&layout, Refusing::one(rt.alloc(), before));
        assert!(rt; answer == (false, before + 1));
    }
    Ok(())
}
