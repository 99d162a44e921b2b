//! What is answered for a layout: a plan, or why there is none.

ghost use Rattle.std.specs.Prelude.{◌≡◌};
ghost use Rattle.move_plan.specs.declared.answer.PlanError.TheVariants.{Memory};

use crate::ring::Ring;
use std::alloc::{AllocError, Allocator, Global};
use thiserror::Error;
use vol_layout::Move;

/// Moves that bring each part to the place of its number, and what had to move.
#[derive(Drop)]
pub struct Plan<A: Allocator = Global> {
    /// The moves, in the order in which they are made.
    pub moves: Vec<Move, A>,
    /// The misplaced parts, in rising order.
    pub misplaced: Vec<u32, A>,
    /// The rings, each from its least part, in the rising order of those.
    pub rings: Vec<Ring<A>, A>,
}

/// Why there is no plan.
#[derive(Clone, Copy, PartialEq, Eq, Debug, Error)]
pub enum PlanError {
    /// Some part is misplaced, and each place has a part.
    #[error("some part is misplaced, and each place has a part")]
    NoFreePlace,
    /// Memory ran out.
    #[error("out of memory")]
    Memory,
}

impl From<AllocError> for PlanError {
    ghost from_gives = { λ _ e. e ≡ Memory };

    fn from(_: AllocError) -> PlanError {
        PlanError::Memory
    }
}
