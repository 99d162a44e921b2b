//! Plans that bring each part of a layout to the place of its number in the fewest moves.
//!
//! A plan first fills the holes, the places below the number of parts where no part stands, in
//! rising order: the part of that number moves there, and then, while the place just left is below
//! the number of parts, the part of that number moves there. What is then still misplaced stands in
//! rings. Each is turned, by its least part in rising order: its least part moves to a spare place,
//! each place left is filled by the part of its number, and at the end the least part comes home.
//! The spare place is the one that the last hole run left, or the first past the parts where there
//! were no holes.
//!
//! So each misplaced part moves home once and each ring costs one move more, which is the deficit
//! of the layout: no plan is shorter. All of this follows the table of a `Layout` from place to
//! part, and never searches a list.
#![tactic(auto)]

mod answer;
mod planner;
mod ring;

ghost use Rattle.std.specs.Prelude.{◌≡◌, ◌≢◌, ◌≤◌, List, [], length, max, All, OnOk, IfOk, Err};
ghost use Rattle.vol_layout.specs.Layouts.{IsTarget, holes, misplaced};
ghost use Rattle.vol_layout.specs.Plans.{IsPlan, after, starts};
ghost use Rattle.vol_layout.specs.Rings.{AreAllRings, IsDeficit};
ghost use Rattle.vol_layout.specs.declared.moves.Move.{Move};
ghost use Rattle.move_plan.specs.Planning.{AreInRisingOrder, BeginsWithLeast, LacksFreePlace};

pub use answer::{Plan, PlanError};
use planner::Planner;
pub use ring::Ring;
use std::alloc::{AllocError, Allocator};
use vol_layout::Layout;

/// The plan for a layout: the fewest moves that bring each part to the place of its number. Each goes
/// into the place that the move before it left, but for as many as there are holes, or one where
/// there are none. `NoFreePlace` where each place has a part and some part is misplaced.
pub fn plan<A: Allocator + Copy, B: Allocator>(
    alloc: A,
    layout: &Layout<B>,
) -> Result<Plan<A>, PlanError>
    // The moves are legal, lead to the target, and are the fewest that do.
    ensures legal { IfOk result (λ plan. IsPlan layout.now.at layout.now.places plan.moves.items) }
    ensures target { IfOk result (λ plan. IsTarget (after layout.now.at plan.moves.items)) }
    ensures deficit { IfOk result (λ plan. IsDeficit layout.now.at (length plan.moves.items)) }
    ensures shortest { IfOk result (λ plan. (other : List Move)
        → IsPlan layout.now.at layout.now.places other → IsTarget (after layout.now.at other)
        → length plan.moves.items ≤ length other) }
    ensures starts { IfOk result (λ plan. misplaced layout.now.at ≢ []
        → starts layout.now.at plan.moves.items ≡ max (length (holes layout.now.at)) 1) }

    // What had to move.
    ensures misplaced { IfOk result (λ plan. plan.misplaced.items ≡ misplaced layout.now.at) }
    ensures rings { IfOk result (λ plan. AreAllRings layout.now.at plan.rings.items) }
    ensures least { IfOk result (λ plan. All BeginsWithLeast plan.rings.items) }
    ensures rising { IfOk result (λ plan. AreInRisingOrder plan.rings.items) }

    ensures no_free_place { result ≡ Err PlanError.NoFreePlace → LacksFreePlace layout.now }
    ensures free_place { OnOk result (LacksFreePlace layout.now → ⊥) }
{
    let misplaced = misplaced_parts(alloc, layout.at())?;
    if !misplaced.is_empty() && layout.at().len() == layout.places() as usize {
        return Err(PlanError::NoFreePlace);
    }
    // A ring has two misplaced parts at least, and costs one move more.
    let mut planner = Planner::new(alloc, layout, misplaced.len() + misplaced.len() / 2)?;
    if !misplaced.is_empty() {
        planner.fill_holes(layout)?;
        planner.turn_rings(alloc, layout)?;
    }
    let Planner { moves, rings, .. } = planner;
    Ok(Plan {
        moves,
        misplaced,
        rings,
    })
}

/// The parts that stand elsewhere than at the place of their number, in rising order.
fn misplaced_parts<A: Allocator>(alloc: A, at: &[u32]) -> Result<Vec<u32, A>, AllocError>
    requires { length at.now ≤ 1000000 }
    ensures { IfOk result (λ parts. parts.items ≡ misplaced at.now) }
{
    let mut parts = Vec::new(alloc);
    for k in 0..at.len() {
        if at[k] as usize != k {
            parts.push(k as u32)?;
        }
    }
    Ok(parts)
}
