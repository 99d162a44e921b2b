//! Each small layout: its plan beside the fewest moves that a search finds.

use crate::moves::examples::layout_in;
use crate::moves::search::{CODES, fewest_moves, is_layout, places_of};
use move_plan::{PlanError, plan};
use std::test::Fail;

/// Whether the plan for a layout has as many moves as the search found, or there is none and it found none.
fn agrees(rt: &HostRuntime, at: &[u32], places: u32, fewest: Option<u32>) -> Result<bool, Fail> {
    match plan(rt.alloc(), &layout_in(rt.alloc(), at, places)?) {
        Ok(plan) => Ok(fewest.map(|moves| moves as usize) == Some(plan.moves.len())),
        Err(PlanError::NoFreePlace) => Ok(fewest.is_none()),
        Err(PlanError::Memory) => Ok(false),
    }
}

#[test]
fn no_small_layout_has_a_shorter_plan(rt: HostRuntime) -> Result<(), Fail> {
    let mut layouts = 0u32;
    for parts in 0..5 {
        for places in parts as u32..7 {
            let fewest = fewest_moves(rt.alloc(), parts, places)?;
            for code in 0..CODES {
                let at = places_of(code);
                if is_layout(at, parts, places) {
                    layouts = layouts.saturating_add(1);
                    let found = fewest.get(code).copied().flatten();
                    assert!(rt; agrees(&rt, &at[..parts], places, found)?, "from {at:?}");
                }
            }
        }
    }
    // For n parts the sum over N from n to 6 of N! / (N - n)!: 7, 21, 70, 210 and 504.
    assert_eq!(rt; layouts, 812);
    Ok(())
}
