//! Plans, what they tell of the layout, and where there is none.

use crate::moves::examples::{RINGS_AND_HOLE, in_reverse_order, layout_in};
use move_plan::{Plan, PlanError, plan};
use std::alloc::Global;
use std::test::Fail;
use test_volumes::Refusing;
use vol_layout::Layout;

/// Whether the plan for a layout has these moves, each of a part to a place.
fn plans(alloc: Global, at: &[u32], places: u32, moves: &[(u32, u32)]) -> Result<bool, Fail> {
    let found = plan(alloc, &layout_in(alloc, at, places)?)?;
    for (made, (part, to)) in found.moves.iter().zip(moves) {
        if made.part != *part || made.to != *to {
            return Ok(false);
        }
    }
    Ok(found.moves.len() == moves.len())
}

#[test]
fn the_stated_plan(rt: HostRuntime) -> Result<(), Fail> {
    let rows = [
        // A ring; a hole; runs into two holes.
        ([1, 0].as_slice(), 3, [(0, 2), (1, 1), (0, 0)].as_slice()),
        (&[3, 0, 2], 5, &[(1, 1), (0, 0)]),
        (&[5, 3, 0, 4], 6, &[(1, 1), (3, 3), (2, 2), (0, 0)]),
        // A ring beside a part that is home; two rings; a hole and two rings.
        (&[0, 2, 1], 273, &[(1, 3), (2, 2), (1, 1)]),
        (
            &[3, 2, 1, 0],
            496,
            &[(0, 4), (3, 3), (0, 0), (1, 4), (2, 2), (1, 1)],
        ),
        (
            &RINGS_AND_HOLE,
            496,
            &[
                (0, 0),
                (1, 6),
                (2, 2),
                (1, 1),
                (3, 6),
                (4, 4),
                (5, 5),
                (3, 3),
            ],
        ),
        // Nothing to do: each part is home, and no part.
        (&[0, 1], 2, &[]),
        (&[], 3, &[]),
    ];
    for (at, places, moves) in rows {
        assert!(rt; plans(rt.alloc(), at, places, moves)?, "from {at:?}");
    }
    Ok(())
}

/// Whether a plan has two rings, of these parts.
fn has_rings(plan: &Plan, first: &[u32], second: &[u32]) -> bool {
    match plan.rings.as_slice() {
        [one, other] => one.parts() == first && other.parts() == second,
        _ => false,
    }
}

#[test]
fn misplaced_parts_and_rings(rt: HostRuntime) -> Result<(), Fail> {
    let found = plan(rt.alloc(), &layout_in(rt.alloc(), &RINGS_AND_HOLE, 496)?)?;
    assert!(rt; found.misplaced.as_slice() == [0, 1, 2, 3, 4, 5].as_slice());
    assert!(rt; has_rings(&found, &[1, 2], &[3, 4, 5]));
    Ok(())
}

#[test]
fn no_free_place(rt: HostRuntime) -> Result<(), Fail> {
    let full = layout_in(rt.alloc(), &[1, 0], 2)?;
    assert!(rt; plan(rt.alloc(), &full).err() == Some(PlanError::NoFreePlace));
    Ok(())
}

#[test]
fn parts_in_reverse_order(rt: HostRuntime) -> Result<(), Fail> {
    let found = plan(rt.alloc(), &in_reverse_order(rt.alloc())?)?;
    assert!(rt; (found.rings.len(), found.moves.len()) == (32_500, 97_500));
    Ok(())
}

/// Why a layout has no plan over a heap, and how many blocks that asks for.
fn plan_over(layout: &Layout, heap: Refusing<Global>) -> (Option<PlanError>, u64) {
    let error = plan(&heap, layout).err();
    (error, heap.asked())
}

/// Where a block is refused, the answer is want of memory, and no block is asked after it.
#[test]
fn each_block_refused(rt: HostRuntime) -> Result<(), Fail> {
    let layout = layout_in(rt.alloc(), &RINGS_AND_HOLE, 496)?;
    let (error, asked) = plan_over(&layout, Refusing::none(rt.alloc()));
    assert!(rt; error.is_none());
    for before in 0..asked {
        let answer = plan_over(&layout, Refusing::one(rt.alloc(), before));
        assert!(rt; answer == (Some(PlanError::Memory), before + 1));
    }
    Ok(())
}
